// A file taken: read, its months counted, its rates put into the store, its flag or segment noted.
ghost use Rattle.std.specs.Prelude.{◌≡◌, false};
ghost use Rattle.polling.specs.Requests.{requests_of};
ghost use Rattle.unit.specs.Rows.{is_unset};
ghost use Rattle.unit.specs.Calls.{clock_time};
ghost use Rattle.taking.specs.Ready.{Checked};
ghost use Rattle.taking.specs.Taken.{take_of, store_after_take};
ghost use Rattle.taking.specs.Taking.{take_summary, filed};

use polling::Requests;
use pool::Pool;
use rules::{Cause, Format, Summary};
use unit::{Done, Unit};

// What is due after the file, by its format and the clock, which is set.
fn take_requests(clock: Option<u32>, old: Requests, summary: Summary) -> Requests
    requires { is_unset clock ≡ false }
    ensures { requests_of result ≡ take_summary (clock_time clock) summary.format summary (requests_of old) }
{
    if summary.format == Format::F201 {
        return old.take_year((summary.segment % 10) as u8);
    }
    if summary.format != Format::F203 {
        return old;
    }
    let Some(update) = summary.update else {
        return old;
    };
    let Some(t) = clock else {
        return old;
    };
    old.take_update(t, update.flag, update.next_access)
}

// The unit with the pool and the requests that a file left.
fn filed(unit: Unit, pool: Pool, requests: Requests) -> Done<()>
    ensures { result ≡ filed unit pool requests }
{
    Done {
        unit: Unit {
            pool,
            requests,
            ..unit
        },
        answer: Ok(()),
    }
}

// A file, by its name and body, where unit, store and clock were looked at. All is decided before the first byte of the store is written.
pub(crate) fn take_checked(unit: Unit, name: &[u8], body: &[u8], store: &mut [u8]) -> Done<()>
    requires { Checked unit store.old }
    ensures answer { result ≡ take_of unit store.old name.now body.now }
    ensures kept { store.new ≡ store_after_take unit store.old name.now body.now }
{
    let plant = unit.plant;
    let held = unit.pool;
    let old = unit.requests;
    let id = plant.id;
    match transfer::read_to_take(&id, name, body) {
        Err(cause) => unit.refuse(cause),
        Ok(summary) => {
            // A file that is taken is a schedule, which has a start.
            let start = summary.start.unwrap_or(0);
            let needed = schedule::missing(held, unit.floor, start, summary.rates);
            if held.free_count() < needed {
                return unit.refuse(Cause::Full);
            }
            let format = summary.format;
            let pool = crate::put::put_records(
                format,
                summary.records,
                held,
                unit.floor,
                start,
                &body[layout::RECORDS..],
                store,
            );
            filed(unit, pool, take_requests(unit.clock, old, summary))
        }
    }
}

// A file, by its name and body.
#[tactic(auto, unfolding(crate::specs::Ready::ready_of, crate::specs::Taken::outcome_taken, crate::specs::Taken::store_taken, rules::specs::Table::first_of))]
pub fn take_file(unit: Unit, name: &[u8], body: &[u8], store: &mut [u8]) -> Done<()>
    ensures answer { result ≡ take_of unit store.old name.now body.now }
    ensures kept { store.new ≡ store_after_take unit store.old name.now body.now }
{
    match crate::ready::check(unit, store) {
        Err(cause) => unit.refuse(cause),
        Ok(()) => take_checked(unit, name, body, store),
    }
}
