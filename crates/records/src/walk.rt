// A walk over the records of a body that stands.
ghost use Rattle.std.specs.Prelude.{◌≡◌, ◌+◌, ◌^◌, ◌<◌};
ghost use Rattle.rules.specs.Body.{count_of};
ghost use Rattle.records.specs.Standing.{Stands};
ghost use Rattle.records.specs.Locating.{only_update, places_of, places_at};

use crate::Places;
use rules::Format;

// The place n for 203, which alone has a flag and a next access.
fn only_update(format: Format, n: usize) -> Option<usize>
    ensures { result ≡ only_update format n }
{
    (format == Format::F203).then_some(n)
}

// The fields of a record that begins at `at` and has n rates.
fn places_of(format: Format, at: usize, n: usize) -> Places
    requires { at + n < 2 ^ 63 }
    ensures { result ≡ places_of format at n }
{
    let flag = at + layout::RATES + n;
    let checksum = flag + layout::flag_digits(format);
    Places {
        schedule: at,
        plant: at + layout::PLANT,
        start: at + layout::START,
        rates: at + layout::RATES,
        count: n,
        flag: only_update(format, flag),
        checksum,
        next: only_update(format, checksum + layout::CHECKSUM_DIGITS),
    }
}

// The fields of record `index`. A walk of its own: it goes by places in the body, which the records of `layout` do not know.
pub(crate) fn places_in(format: Format, body: &[u8], index: usize) -> Places
    requires { Stands format body.now × (index < count_of format) }
    ensures { result ≡ places_at format body.now index }
{
    let mut at = layout::RECORDS;
    for _ in 0..index {
        at += layout::record_size(format, &body[at..]);
    }
    let n = layout::rate_count(&body[at..]) as usize;
    places_of(format, at, n)
}
