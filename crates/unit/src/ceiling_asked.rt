// The ceiling of a slot.
ghost use Rattle.std.specs.Prelude.{◌≡◌};
ghost use Rattle.unit.specs.Calls.{ceiling_of};
ghost use Rattle.unit.specs.Asked.{ceiling_asked};

use crate::{Done, Unit};
use rules::{Cause, Ceiling};

// 'Slot not below 1,753,200'.
const SLOT_COUNT: u64 = rules::SLOT_COUNT as u64;

impl Unit {
    #[tactic(auto, unfolding(crate::specs::Calls::ceiling_of, crate::specs::Calls::lent_of, rules::specs::Table::first_of))]
    fn ceiling_answer(self, slot: u64, store: &[u8]) -> Result<Option<Ceiling>, Cause>
        ensures { result ≡ ceiling_of self store.now slot }
    {
        self.lent(store)?;
        if self.clock.is_none() {
            return Err(Cause::ClockUnset);
        }
        if SLOT_COUNT <= slot {
            return Err(Cause::Range);
        }
        Ok(ceiling::of_slot(self.plant, self.pool, store, slot as u32))
    }

    // The rate and the percent of a slot, where it has one.
    pub fn ceiling(self, slot: u64, store: &[u8]) -> Done<Option<Ceiling>>
        ensures { result ≡ ceiling_asked self store.now slot }
    {
        self.answering(self.ceiling_answer(slot, store))
    }
}
