// What is kept of an accepted schedule body.
ghost use Rattle.std.specs.Prelude.{◌≡◌, true, []};
ghost use Rattle.rules.specs.Body.{count_of, is_schedule};
ghost use Rattle.rules.specs.File.{record_dates};
ghost use Rattle.rules.specs.Reading.{summary_of};
ghost use Rattle.rules.specs.declared.Format.TheVariants.{F203};
ghost use Rattle.form.specs.Walk.{shaped, records_from, Whole};
ghost use Rattle.body.specs.Records.{update_in, update_at};
ghost use Rattle.body.specs.Reading.{name_of, schedule_file};

use layout::{RATE_COUNT, RATES, START};
use rules::{Format, Summary, Update};

// A segment has 4 digits.
pub const SEGMENTS: u16 = 10000;

// The flag and the next access of the 203 record at the front of `s`; none where the next access is no date.
fn update_in(s: &[u8]) -> Option<Update>
    requires { Whole F203 s.now }
    ensures { result ≡ update_in s.now }
{
    let flag = RATES + layout::rate_count(s) as usize;
    let next = flag + layout::FLAG_DIGITS + layout::CHECKSUM_DIGITS;
    let end = next + layout::NEXT_DIGITS;
    let next_access = calendar::read_moment(&s[next..end])?;
    Some(Update {
        flag: s[flag],
        next_access,
    })
}

// The same of the record at the front of `s` where the format has them.
fn update_at(format: Format, s: &[u8]) -> Option<Update>
    requires { Whole format s.now }
    ensures { result ≡ update_at format s.now }
{
    match format {
        Format::F203 => update_in(s),
        Format::F201 | Format::F202 | Format::F301 => None,
    }
}

// The rates are what `s` has beside the other fields of its records.
pub(crate) fn schedule_summary(format: Format, segment: u16, s: &[u8]) -> Summary
    requires scheduled { is_schedule format ≡ true }
    requires formed { shaped format (count_of format) s.now ≡ true }
    requires dated { record_dates (name_of format segment []) format (records_from format (count_of format) s.now) ≡ true }
    ensures { result ≡ summary_of (schedule_file format segment [] (records_from format (count_of format) s.now)) }
{
    let rates = s.len() - layout::fixed_bytes(format);
    Summary {
        format,
        segment: segment % SEGMENTS,
        records: layout::record_count(format),
        rates: rates as u32,
        start: calendar::start_slot(&s[START..RATE_COUNT]),
        update: update_at(format, s),
        result: None,
    }
}
