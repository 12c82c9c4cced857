// Stage 10: 'a date or n against the rules above' (01, Causes of refusal), of a body that has its form.
ghost use Rattle.std.specs.Prelude.{◌≡◌, [], ◌≤◌};
ghost use Rattle.rules.specs.File.{months_from, first_month, record_dates};
ghost use Rattle.layout.specs.Walk.{record_of};
ghost use Rattle.form.specs.Walk.{records_left};
ghost use Rattle.body.specs.Records.{Formed, month_fits, update_fits};
ghost use Rattle.body.specs.Reading.{name_of};

use layout::{Parts, Records};
use rules::Format;

// Whether the record is the whole of the month.
fn whole_month(month: u16, parts: &Parts) -> bool
    ensures { result ≡ month_fits month (record_of parts.now) }
{
    layout::is_whole_month(month, parts.start(), parts.rates.len() as u32)
}

// '13 records of consecutive months, rising' (01, Names and bodies): whether the records are those of `first` and on.
fn months_hold(first: u16, records: Records) -> bool
    requires { Formed records × (first ≤ 1286) }
    ensures { result ≡ months_from first (records_left records.entry) }
{
    (first..u16::MAX)
        .zip(records)
        .all(|(month, parts)| whole_month(month, &parts))
}

// The same from the month of the first record on.
fn rising_months_hold(records: Records) -> bool
    requires { Formed records }
    ensures { result ≡ months_from (first_month (records_left records.entry)) (records_left records.entry) }
{
    let mut ahead = records;
    let Some(parts) = ahead.next() else {
        return true;
    };
    let Some(first) = calendar::month_begun(parts.start()) else {
        return false;
    };
    months_hold(first, records)
}

// Whether the dates of a 203's record keep the rules.
fn update_dates_hold(parts: &Parts) -> bool
    ensures { result ≡ update_fits (record_of parts.now) }
{
    layout::is_update(parts.start(), parts.rates.len() as u32, parts.next_access())
}

// Whether the dates and rate counts of the records keep the rules of the format.
pub(crate) fn dates_hold(segment: u16, records: Records) -> bool
    requires { Formed records }
    ensures { result ≡ record_dates (name_of records.entry.format segment []) records.entry.format (records_left records.entry) }
{
    match records.format {
        Format::F201 => rising_months_hold(records),
        Format::F202 => months_hold(layout::segment_month(segment), records),
        Format::F203 => {
            let mut left = records;
            left.all(|parts| update_dates_hold(&parts))
        }
        Format::F301 => true,
    }
}
