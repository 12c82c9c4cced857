// The schedule unit (01, The store, The plain machine): its values, and its calls.
#![tactic(auto)]

ghost use Rattle.std.specs.Prelude.{◌≡◌};
ghost use Rattle.rules.specs.Store.{sound_clock};
ghost use Rattle.plant.specs.Plant.{given_of};
ghost use Rattle.unit.specs.Values.{is_sound, fresh_unit, installed_unit};
ghost use Rattle.unit.specs.Calls.{refusal, lent_of, lost_of, failure_of, due_of, command_of, free_of};
ghost use Rattle.unit.specs.Asked.{due_asked, command_asked, free_asked};

mod ceiling_asked;
mod requesting;
mod tick;

use plant::{GivenSettings, Plant};
use polling::Requests;
use pool::{ALL_FREE, Pool};
use rules::{BLOCK_COUNT, Cause, Due, END_OF_TIME, Kind, MONTH_COUNT};

// A unit. clock is the second that it stands at, where it is set; floor is the floor month; command is in parts, of which 6,000 × N are 100%.
#[derive(Clone, Copy)]
pub struct Unit {
    pub plant: Plant,
    pub pool: Pool,
    pub requests: Requests,
    pub clock: Option<u32>,
    pub floor: u16,
    pub command: u32,
}

// What a call hands back: the unit after it, and its answer, or the cause that refused it.
#[derive(Clone, Copy)]
pub struct Done<T> {
    pub unit: Unit,
    pub answer: Result<T, Cause>,
}

// The answer to install, and the unit where it is accepted; else one that is not sound. No Result: C gets its struct back in either case, and
// what every call answers to that of a refused install is proved.
#[derive(Clone, Copy)]
pub struct Installed {
    pub answer: Result<(), Cause>,
    pub unit: Unit,
}

// 'command at most 6,000 × N'.
const FULL_COMMAND: u64 = 6000;

// Whether a clock that is set stands before the end of 2099.
fn sound_clock(clock: Option<u32>) -> bool
    ensures { result ≡ sound_clock clock }
{
    clock.is_none_or(|t| t < END_OF_TIME)
}

// The fresh unit of a plant.
#[tactic(auto, unfolding(crate::specs::Values::fresh_unit))]
fn fresh(plant: Plant) -> Unit
    ensures { result ≡ fresh_unit plant }
{
    Unit {
        plant,
        pool: Pool {
            months: [0u16; BLOCK_COUNT],
            free: ALL_FREE,
        },
        requests: Requests::fresh(),
        clock: None,
        floor: 0,
        command: 0,
    }
}

impl Unit {
    // The lengths that belong to a unit: 16 blocks of 1,488 bytes.
    pub const BLOCK_COUNT: usize = rules::BLOCK_COUNT;

    pub const BLOCK_LENGTH: usize = rules::BLOCK_LENGTH;

    pub const STORE_LENGTH: usize = rules::STORE_LENGTH;

    // The fresh unit of these values, or cause 1 or 2.
    #[tactic(auto, unfolding(crate::specs::Values::installed_unit))]
    pub fn install(id: &[u8], mac: &[u8], given: GivenSettings) -> Installed
        ensures { result ≡ installed_unit id.now mac.now (given_of given) }
    {
        let made = Plant::install(id, mac, given);
        Installed {
            answer: made.answer,
            unit: fresh(made.plant),
        }
    }

    // Whether the unit is sound in 01's words.
    #[tactic(auto, using(crate::proofs::CallLaws::sound_is))]
    pub fn sound(self) -> bool
        ensures { result ≡ is_sound self }
    {
        let settings = self.plant.settings;
        self.plant.valid()
            & (self.floor < MONTH_COUNT)
            & self.pool.sound(self.floor)
            & self.requests.sound(settings)
            & sound_clock(self.clock)
            & (self.command as u64 <= FULL_COMMAND * settings.minutes as u64)
    }

    // What is looked at first where a store is lent, in the order of 01's table: 3, then 4. Inlined, since a frame of its own holds a unit more.
    #[inline(always)]
    #[tactic(auto, unfolding(crate::specs::Calls::lent_of, rules::specs::Table::first_of, schedule::specs::Stored::store_holds))]
    pub fn lent(self, store: &[u8]) -> Result<(), Cause>
        ensures { result ≡ lent_of self store.now }
    {
        if store.len() != Unit::STORE_LENGTH {
            return Err(Cause::StoreLength);
        }
        if !(self.sound() & schedule::store_holds(self.pool, store)) {
            return Err(Cause::Unsound);
        }
        Ok(())
    }

    // The unit as it was, with an answer.
    fn answering<T>(self, answer: Result<T, Cause>) -> Done<T>
        ensures { (result.unit ≡ self) × (result.answer ≡ answer) }
    {
        Done { unit: self, answer }
    }

    // The unit with a cause, as it was.
    pub fn refuse(self, cause: Cause) -> Done<()>
        ensures { result ≡ refusal self cause }
    {
        self.answering(Err(cause))
    }

    // The clock is lost: unset, and the command 0.
    #[tactic(auto, unfolding(crate::specs::Calls::lost_of, crate::specs::Calls::lost, rules::specs::Table::first_of))]
    pub fn clock_lost(self) -> Done<()>
        ensures { result ≡ lost_of self }
    {
        if !self.sound() {
            return self.refuse(Cause::Unsound);
        }
        Done {
            unit: Unit {
                clock: None,
                command: 0,
                ..self
            },
            answer: Ok(()),
        }
    }

    // A request for the update or the fixed schedule failed with that status.
    #[tactic(auto, unfolding(crate::specs::Calls::failure_of, crate::specs::Calls::with_failure, rules::specs::Table::first_of))]
    pub fn failure(self, kind: Kind, status: u64) -> Done<()>
        ensures { result ≡ failure_of self kind status }
    {
        if !self.sound() {
            return self.refuse(Cause::Unsound);
        }
        let Some(t) = self.clock else {
            return self.refuse(Cause::ClockUnset);
        };
        if !polling::is_status(status) {
            return self.refuse(Cause::Range);
        }
        let plant = self.plant;
        let requests = self
            .requests
            .failed(plant.settings, kind, plant.check_digit(), t, status);
        Done {
            unit: Unit { requests, ..self },
            answer: Ok(()),
        }
    }

    #[tactic(auto, unfolding(crate::specs::Calls::due_of, rules::specs::Table::first_of))]
    fn due_answer(self) -> Result<Option<Due>, Cause>
        ensures { result ≡ due_of self }
    {
        if !self.sound() {
            return Err(Cause::Unsound);
        }
        let t = self.clock.ok_or(Cause::ClockUnset)?;
        let plant = self.plant;
        Ok(self.requests.due(plant.settings, plant.check_digit(), t))
    }

    // What is due.
    pub fn due(self) -> Done<Option<Due>>
        ensures { result ≡ due_asked self }
    {
        self.answering(self.due_answer())
    }

    #[tactic(auto, unfolding(crate::specs::Calls::command_of, rules::specs::Table::first_of))]
    fn command_answer(self) -> Result<u32, Cause>
        ensures { result ≡ command_of self }
    {
        if !self.sound() {
            return Err(Cause::Unsound);
        }
        Ok(self.command)
    }

    // The command, in parts.
    pub fn command(self) -> Done<u32>
        ensures { result ≡ command_asked self }
    {
        self.answering(self.command_answer())
    }

    #[tactic(auto, unfolding(crate::specs::Calls::free_of, rules::specs::Table::first_of))]
    fn free_answer(self) -> Result<u32, Cause>
        ensures { result ≡ free_of self }
    {
        if !self.sound() {
            return Err(Cause::Unsound);
        }
        Ok(self.pool.free_count())
    }

    // How many blocks are free.
    pub fn free_blocks(self) -> Done<u32>
        ensures { result ≡ free_asked self }
    {
        self.answering(self.free_answer())
    }
}
