// Putting the records of a body that reads well into the blocks of their months, one after the other.
ghost use Rattle.std.specs.Prelude.{◌≡◌};
ghost use Rattle.form.specs.Walk.{records_from};
ghost use Rattle.schedule.specs.Rates.{stored_of};
ghost use Rattle.about_store.specs.Run.{put_records};
ghost use Rattle.taking.specs.Taking.{Following};

use layout::Records;
use pool::Pool;
use rules::Format;

// Puts the records that stand in `s`, the first of which starts with slot `start`.
pub(crate) fn put_records(
    format: Format,
    count: u32,
    held: Pool,
    floor: u16,
    start: u32,
    s: &[u8],
    store: &mut [u8],
) -> Pool
    requires { Following format count start s.now }
    ensures { stored_of result store.new ≡ put_records floor (records_from format count s.now) (stored_of held store.old) }
{
    let mut pool = held;
    let mut slot = start;
    for parts in Records::new(format, count, s) {
        pool = schedule::put_run(pool, floor, slot, parts.rates, store);
        slot += parts.rates.len() as u32;
    }
    pool
}
