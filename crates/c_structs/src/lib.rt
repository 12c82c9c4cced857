// The unit as C holds it, and the unit that it stands for.
#![tactic(auto)]

ghost use Rattle.std.specs.Prelude.{◌≡◌};
ghost use Rattle.plant.specs.Plant.{given_of};
ghost use Rattle.c_structs.specs.Held.{settings_in, settings_held, clock_from, opened, shut_of, handed, newly};

use plant::{GivenSettings, Plant};
use polling::Requests;
use pool::Pool;
use rules::BLOCK_COUNT;
use unit::{Done, Installed, Unit};

// The settings in fields of fixed layout: wide, as an installer gives them.
#[repr(C)]
#[derive(Clone, Copy)]
pub struct HeldSettings {
    pub panel: u64,
    pub inverter: u64,
    pub minutes: u64,
}

// A unit in fields of fixed layout. clock_set is 1 and clock the second where the clock is set; else both are 0.
#[repr(C)]
#[derive(Clone, Copy)]
pub struct HeldUnit {
    pub id: [u8; 26],
    pub mac: [u8; 12],
    pub wanted_flag: u8,
    pub held_flag: u8,
    pub failures: u8,
    pub clock_set: u8,
    pub floor: u16,
    pub months: [u16; BLOCK_COUNT],
    pub free: u16,
    pub clock: u32,
    pub command: u32,
    pub fixed_at: u64,
    pub update_at: u64,
    pub settings: HeldSettings,
}

// A unit after a call, and 0 or the number of the cause that refused it.
#[repr(C)]
#[derive(Clone, Copy)]
pub struct Handed {
    pub unit: HeldUnit,
    pub cause: u32,
}

// The settings that C gives or holds.
impl From<HeldSettings> for GivenSettings {
    ghost from_gives = { λ held given. given_of given ≡ settings_in held };

    fn from(held: HeldSettings) -> GivenSettings {
        GivenSettings {
            panel: held.panel,
            inverter: held.inverter,
            minutes: held.minutes,
        }
    }
}

// The settings for C to hold.
impl From<GivenSettings> for HeldSettings {
    ghost from_gives = { λ given held. held ≡ settings_held (given_of given) };

    fn from(given: GivenSettings) -> HeldSettings {
        HeldSettings {
            panel: given.panel,
            inverter: given.inverter,
            minutes: given.minutes,
        }
    }
}

// A clock that no sound unit has: C's fields can say more than an Option does.
const NEVER: u32 = 4294967295;

// The clock of a mark and a second. Where no unit has them, it is one that is not sound.
#[tactic(auto, unfolding(crate::specs::Held::clock_from))]
fn clock_from(mark: u8, second: u32) -> Option<u32>
    ensures { result ≡ clock_from mark second }
{
    match (mark, second) {
        (1, _) => Some(second),
        (0, 0) => None,
        _ => Some(NEVER),
    }
}

// The unit that C holds, or one that is not sound where it holds none: a setting that a unit has no room for is out of its range.
impl From<HeldUnit> for Unit {
    ghost from_gives = { λ held unit. unit ≡ opened held };

    #[tactic(auto, unfolding(crate::specs::Held::opened))]
    fn from(held: HeldUnit) -> Unit {
        let HeldUnit {
            id,
            mac,
            months,
            ..
        } = held;
        let given = GivenSettings::from(held.settings);
        Unit {
            plant: Plant {
                id,
                mac,
                settings: given.narrowed(),
            },
            pool: Pool {
                months,
                free: held.free,
            },
            requests: Requests {
                wanted_flag: held.wanted_flag,
                held_flag: held.held_flag,
                failures: held.failures,
                fixed_at: held.fixed_at,
                update_at: held.update_at,
            },
            clock: clock_from(held.clock_set, held.clock),
            floor: held.floor,
            command: held.command,
        }
    }
}

// The unit for C to hold.
impl From<Unit> for HeldUnit {
    ghost from_gives = { λ unit held. held ≡ shut_of unit };

    #[tactic(auto, unfolding(crate::specs::Held::shut_of))]
    fn from(unit: Unit) -> HeldUnit {
        let Unit {
            plant,
            pool,
            requests,
            clock,
            floor,
            command,
        } = unit;
        let Plant { id, mac, settings } = plant;
        let Pool { months, free } = pool;
        HeldUnit {
            id,
            mac,
            wanted_flag: requests.wanted_flag,
            held_flag: requests.held_flag,
            failures: requests.failures,
            clock_set: u8::from(clock.is_some()),
            floor,
            months,
            free,
            clock: clock.unwrap_or(0),
            command,
            fixed_at: requests.fixed_at,
            update_at: requests.update_at,
            settings: HeldSettings::from(GivenSettings::from(settings)),
        }
    }
}

// What a call hands back: its unit, or where it is refused the very struct that came in.
#[tactic(auto, unfolding(crate::specs::Held::handed))]
pub fn hand(held: HeldUnit, done: Done<()>) -> Handed
    ensures { result ≡ handed held done }
{
    match done.answer {
        Ok(()) => Handed {
            unit: HeldUnit::from(done.unit),
            cause: 0,
        },
        Err(cause) => Handed {
            unit: held,
            cause: u32::from(cause),
        },
    }
}

// What installing hands out.
impl From<Installed> for Handed {
    ghost from_gives = { λ installed handed. handed ≡ newly installed };

    #[tactic(auto, unfolding(crate::specs::Held::newly))]
    fn from(installed: Installed) -> Handed {
        Handed {
            unit: HeldUnit::from(installed.unit),
            cause: installed.answer.err().map_or(0, u32::from),
        }
    }
}
