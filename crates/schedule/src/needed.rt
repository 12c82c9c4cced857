// The blocks that a run of slots still needs: only the months of the run are looked at.
ghost use Rattle.std.specs.Prelude.{◌≡◌, is_none, min, max};
ghost use Rattle.rules.specs.Calendar.{month_of_slot};
ghost use Rattle.rules.specs.Machine.{one};
ghost use Rattle.pool.specs.Blocks.{find_of};
ghost use Rattle.schedule.specs.Stored.{missing};
ghost use Rattle.schedule.specs.Rates.{end_month};

use crate::layout::SLOT_COUNT;
use pool::Pool;

// 1 where no block holds the month.
fn lacks(pool: Pool, month: u16) -> u32
    ensures { result ≡ one (is_none (find_of pool month)) }
{
    u32::from(pool.find(month).is_none())
}

// The month after the last one that has a slot of the run; 0 of no slots.
#[tactic(auto, using(crate::proofs::MissingLaws::end_none, crate::proofs::MissingLaws::end_some, crate::proofs::RateLaws::month_most))]
fn end_month(slot: u32, count: u32) -> u16
    ensures { result ≡ end_month slot count }
{
    if count == 0 {
        return 0;
    }
    let end = (slot as usize + count as usize).min(SLOT_COUNT);
    calendar::month_of_slot((end - 1) as u32) + 1
}

// The first month of the run from floor on, or `end` where there is none.
fn start_month(floor: u16, slot: u32, end: u16) -> u16
    ensures { result ≡ min (max floor (month_of_slot slot)) end }
{
    floor.max(calendar::month_of_slot(slot)).min(end)
}

// How many months from floor on have a slot of the run and no block.
#[tactic(auto, using(crate::proofs::MissingLaws::missing_steps))]
pub fn missing(pool: Pool, floor: u16, slot: u32, count: u32) -> u32
    ensures { result ≡ missing pool floor slot count }
{
    let end = end_month(slot, count);
    let start = start_month(floor, slot, end);
    let mut needed: u32 = 0;
    for month in start..end {
        needed += lacks(pool, month);
    }
    needed
}
