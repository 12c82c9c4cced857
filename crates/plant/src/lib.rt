// The plant (01, Time, plant, settings): its ID, its MAC address, its settings, and percent of the inverter from percent of C.
#![tactic(auto)]

ghost use Rattle.std.specs.Prelude.{◌≡◌, ◌≤◌, min, length, Ok};
ghost use Rattle.rules.specs.Plant.{plant_id, weighted_sum, mac_address, all_hex, hex_byte, valid_settings, capacity, contracted, percent, parts_of};
ghost use Rattle.rules.specs.Plant.{last_digit, installing};
ghost use Rattle.plant.specs.Plant.{kept_of, kept_from, given_of, widest, narrowed, settings_of, valid_plant, plant_of, installed, refusal};

use rules::Cause;

// 'A plant ID is 26 digits'.
const ID_LENGTH: usize = 26;

// The check digit is the last one; those before it have weights.
const CHECK_PLACE: usize = ID_LENGTH - 1;

// 'Weights 1, 3, 5, 7, 9 repeating', one for each digit, so that no remainder is taken for each.
const WEIGHTS: [u8; CHECK_PLACE] =
    *b"\x01\x03\x05\x07\x09\x01\x03\x05\x07\x09\x01\x03\x05\x07\x09\x01\x03\x05\x07\x09\x01\x03\x05\x07\x09";

// 'A MAC address of 12 ASCII bytes'.
const MAC_LENGTH: usize = 12;

// Capacities are '1 to 2,000,000 each', in W.
const MOST_WATTS: u64 = 2000000;

// N, the ramp minutes, is '5 to 10'.
const LEAST_MINUTES: u64 = 5;

// The other end of N.
const MOST_MINUTES: u64 = 10;

// One percent is 60 × N parts of the command.
const PARTS_OF_PERCENT: u64 = 60;

// The greatest number of 32 bits: no setting may be it.
const WIDEST: u64 = 4294967295;

// The settings as a plant keeps them: panel and inverter are capacities in W, the inverter's is P, and minutes is N, the ramp minutes.
#[derive(Clone, Copy)]
pub struct Settings {
    pub panel: u32,
    pub inverter: u32,
    pub minutes: u32,
}

// The settings as an installer gives them: wide, so that no value is cut before its range is judged.
#[derive(Clone, Copy)]
pub struct GivenSettings {
    pub panel: u64,
    pub inverter: u64,
    pub minutes: u64,
}

#[derive(Clone, Copy)]
pub struct Plant {
    pub id: [u8; ID_LENGTH],
    pub mac: [u8; MAC_LENGTH],
    pub settings: Settings,
}

// The answer to install, and the plant where it is accepted; else zeros, which are no valid plant. No Result: C gets a struct in either case.
#[derive(Clone, Copy)]
pub struct Installed {
    pub answer: Result<(), Cause>,
    pub plant: Plant,
}

// The digits times their weights, summed.
#[tactic(auto, using(crate::proofs::Scan::weigh_all, crate::proofs::Scan::weights_most))]
fn weighted_sum(s: &[u8]) -> u16
    requires { length s.now ≤ 25 }
    ensures { result ≡ weighted_sum 0 s.now }
{
    let mut sum: u16 = 0;
    for (&x, &weight) in s.iter().zip(&WEIGHTS) {
        sum += (x as u16) * (weight as u16);
    }
    sum
}

// Whether the bytes are a plant's ID: 26 digits, of which the last is the check digit of the others.
#[tactic(auto, unfolding(rules::specs::Plant::plant_id, rules::specs::Plant::check_digit))]
pub fn is_plant_id(id: &[u8]) -> bool
    ensures { result ≡ plant_id id.now }
{
    if id.len() != ID_LENGTH {
        return false;
    }
    digits::all_at_most(id, 9) & (id[CHECK_PLACE] as u16 == weighted_sum(&id[..CHECK_PLACE]) % 10)
}

// Whether a byte is 0-9 or A-F in ASCII.
fn is_hex_byte(x: u8) -> bool
    ensures { result ≡ hex_byte x }
{
    x.is_ascii_digit() | (b'A'..=b'F').contains(&x)
}

// Whether each byte is one of these.
#[tactic(auto, using(crate::proofs::Scan::hex_step, crate::proofs::Scan::hex_end))]
fn all_hex(s: &[u8]) -> bool
    ensures { result ≡ all_hex s.now }
{
    let mut good = true;
    for &x in s {
        good &= is_hex_byte(x);
    }
    good
}

// Whether the bytes are a MAC address: 12 of 0-9 or A-F.
#[tactic(auto, unfolding(rules::specs::Plant::mac_address))]
pub fn is_mac_address(mac: &[u8]) -> bool
    ensures { result ≡ mac_address mac.now }
{
    (mac.len() == MAC_LENGTH) & all_hex(mac)
}

// Whether panel or inverter may have this capacity.
fn is_capacity(watts: u64) -> bool
    ensures { result ≡ capacity watts }
{
    (1 <= watts) & (watts <= MOST_WATTS)
}

// What 32 bits hold of a number: the widest where they do not hold it.
fn narrow(wide: u64) -> u32
    ensures { result ≡ min wide widest }
{
    wide.min(WIDEST) as u32
}

impl GivenSettings {
    // Whether each is in range.
    #[tactic(auto, unfolding(rules::specs::Plant::valid_settings))]
    pub fn valid(self) -> bool
        ensures { result ≡ valid_settings (given_of self) }
    {
        is_capacity(self.panel)
            & is_capacity(self.inverter)
            & ((LEAST_MINUTES <= self.minutes) & (self.minutes <= MOST_MINUTES))
    }

    // The settings to keep, each as it is where 32 bits hold it; else it is the widest, which is out of range.
    pub fn narrowed(self) -> Settings
        ensures { result ≡ kept_from (narrowed (given_of self)) }
    {
        Settings {
            panel: narrow(self.panel),
            inverter: narrow(self.inverter),
            minutes: narrow(self.minutes),
        }
    }
}

// The same numbers, as an installer gives them.
impl From<Settings> for GivenSettings {
    ghost from_gives = { λ settings given. given_of given ≡ kept_of settings };

    fn from(settings: Settings) -> GivenSettings {
        GivenSettings {
            panel: settings.panel as u64,
            inverter: settings.inverter as u64,
            minutes: settings.minutes as u64,
        }
    }
}

impl Settings {
    // C, the lesser capacity.
    fn contracted(self) -> u64
        ensures { result ≡ contracted (kept_of self) }
    {
        self.panel.min(self.inverter) as u64
    }
}

// The plant of values that installing accepts.
#[tactic(auto, using(digits::proofs::Placing::placed_all, crate::proofs::Laws::accepted_kept))]
fn make(id: &[u8], mac: &[u8], given: GivenSettings) -> Plant
    requires { installing id.now mac.now (given_of given) ≡ Ok tt }
    ensures { result ≡ plant_of id.now mac.now (given_of given) }
{
    let mut own_id = [0u8; ID_LENGTH];
    digits::put(&mut own_id, 0, id);
    let mut own_mac = [0u8; MAC_LENGTH];
    digits::put(&mut own_mac, 0, mac);
    Plant {
        id: own_id,
        mac: own_mac,
        settings: given.narrowed(),
    }
}

// A refusal hands back zeros, and nothing of the caller's values.
fn refuse(cause: Cause) -> Installed
    ensures { result ≡ refusal cause }
{
    Installed {
        answer: Err(cause),
        plant: Plant {
            id: [0u8; ID_LENGTH],
            mac: [0u8; MAC_LENGTH],
            settings: Settings {
                panel: 0,
                inverter: 0,
                minutes: 0,
            },
        },
    }
}

impl Plant {
    // A plant of these values, or cause 1 or 2.
    #[tactic(auto, unfolding(rules::specs::Plant::installing, crate::specs::Plant::installed))]
    pub fn install(id: &[u8], mac: &[u8], given: GivenSettings) -> Installed
        ensures { result ≡ installed id.now mac.now (given_of given) }
    {
        if !is_plant_id(id) {
            return refuse(Cause::PlantId);
        }
        if !(is_mac_address(mac) & given.valid()) {
            return refuse(Cause::Setting);
        }
        Installed {
            answer: Ok(()),
            plant: make(id, mac, given),
        }
    }

    // Whether ID, MAC address and settings are such as install accepts.
    #[tactic(auto, unfolding(crate::specs::Plant::valid_plant))]
    pub fn valid(self) -> bool
        ensures { result ≡ valid_plant self }
    {
        let id = self.id;
        let mac = self.mac;
        is_plant_id(&id) & is_mac_address(&mac) & GivenSettings::from(self.settings).valid()
    }

    // p, in percent of the inverter's capacity P, from the rate r, in percent of C; 0 where P is 0.
    #[tactic(auto, unfolding(rules::specs::Plant::percent), using(crate::proofs::Laws::rate_fits, crate::proofs::Laws::percent_fits))]
    pub fn percent(self, rate: u8) -> u8
        ensures { result ≡ percent (settings_of self) rate }
    {
        let inverter = self.settings.inverter as u64;
        if inverter == 0 {
            return 0;
        }
        ((rate as u64) * self.settings.contracted() / inverter) as u8
    }

    // The command's parts of p percent. Wide, so that they fit for every u32 N.
    #[tactic(auto, using(crate::proofs::Laws::parts_fit))]
    pub fn parts(self, percent: u8) -> u64
        ensures { result ≡ parts_of (settings_of self) percent }
    {
        PARTS_OF_PERCENT * (self.settings.minutes as u64) * (percent as u64)
    }

    // The ID's last digit.
    pub fn check_digit(self) -> u8
        ensures { result ≡ last_digit self.id }
    {
        let id = self.id;
        id[CHECK_PLACE]
    }
}
