// The tick: the clock, the floor month and the command, over any number of seconds at once.
ghost use Rattle.std.specs.Prelude.{◌≡◌, ◌-◌};
ghost use Rattle.rules.specs.Machine.{floor_lag, raised_floor};
ghost use Rattle.unit.specs.Calls.{set_clock, with_command, tick_of};
ghost use Rattle.unit.specs.Ticks.{command_at};

use crate::{Done, Unit};
use rules::{Cause, END_OF_TIME, FLOOR_LAG};

// Where floor follows the clock's month to.
fn lagging(month: u16) -> u16
    ensures { result ≡ month - floor_lag }
{
    month.saturating_sub(FLOOR_LAG)
}

// 'Floor first becomes the greater of itself and the clock's month - 1'.
fn raised_floor(floor: u16, t: u32) -> u16
    ensures { result ≡ raised_floor floor t }
{
    floor.max(lagging(calendar::month_of(t)))
}

impl Unit {
    // The command at second t, by the pool and the store as they are; it stays where the clock is unset or not before t.
    fn command_at(self, t: u32, store: &[u8]) -> u32
        ensures { result ≡ command_at self.clock self store.now t }
    {
        self.clock.map_or(
            self.command,
            |from| ramp::command_after(self.plant, self.pool, store, from, t, self.command),
        )
    }

    // The clock at t, with this command: floor is raised, and blocks of months below it are given back.
    #[tactic(auto, unfolding(crate::specs::Calls::set_clock, crate::specs::Calls::with_command))]
    fn set_clock(self, t: u32, command: u32) -> Unit
        ensures { result ≡ set_clock t (with_command command self) }
    {
        let floor = raised_floor(self.floor, t);
        Unit {
            pool: self.pool.release_below(floor),
            clock: Some(t),
            floor,
            command,
            ..self
        }
    }

    // The clock is told to be at second t.
    #[tactic(auto, unfolding(crate::specs::Calls::tick_of, crate::specs::Calls::lent_of, rules::specs::Table::first_of), using(crate::proofs::TickLaws::ticks))]
    pub fn tick(self, t: u64, store: &[u8]) -> Done<()>
        ensures { result ≡ tick_of self store.now t }
    {
        if let Err(cause) = self.lent(store) {
            return self.refuse(cause);
        }
        if END_OF_TIME as u64 <= t {
            return self.refuse(Cause::Range);
        }
        let second = t as u32;
        let command = self.command_at(second, store);
        Done {
            unit: self.set_clock(second, command),
            answer: Ok(()),
        }
    }
}
