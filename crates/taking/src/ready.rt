// What is looked at before anything is taken: the store's length, unit and store, the clock. Nothing that is taken is looked at before this.
ghost use Rattle.std.specs.Prelude.{◌≡◌};
ghost use Rattle.taking.specs.Ready.{ready_of};

use rules::Cause;
use unit::Unit;

// In the order of 01's table: 3, 4, 5.
#[tactic(auto, unfolding(crate::specs::Ready::ready_of, unit::specs::Calls::lent_of, rules::specs::Table::first_of))]
pub(crate) fn check(unit: Unit, store: &[u8]) -> Result<(), Cause>
    ensures { result ≡ ready_of unit store.now }
{
    unit.lent(store)?;
    if unit.clock.is_none() {
        return Err(Cause::ClockUnset);
    }
    Ok(())
}
