// The numbers of each format (01, Names and bodies).
ghost use Rattle.std.specs.Prelude.{◌≡◌, ◌+◌, ◌*◌, ◌≤◌};
ghost use Rattle.rules.specs.Body.{count_of, most_rates, flag_digits, next_digits, tail_digits, is_schedule};
ghost use Rattle.layout.specs.Places.{rates_place};

use crate::places::{CHECKSUM_DIGITS, FLAG_DIGITS, NEXT_DIGITS, RATES, RECORDS};
use rules::Format;

// '201: 13 records'.
const YEARLY_RECORDS: u32 = 13;

// '203: n 0 to 336'.
const UPDATE_RATES: u32 = 336;

// What the 5 digits of a rate count can say.
const LARGEST_COUNT: u32 = 99999;

// The longest body that has its form: a yearly one, each record with as many rates as its count can say.
pub const LONGEST_BODY: usize = RECORDS
    + YEARLY_RECORDS as usize * (RATES + LARGEST_COUNT as usize + CHECKSUM_DIGITS);

// '201: 13 records', '202: 1 record', '203: 1 record', '301: count 1'.
pub fn record_count(format: Format) -> u32
    ensures { result ≡ count_of format }
{
    if format == Format::F201 {
        YEARLY_RECORDS
    } else {
        1
    }
}

// '203: n 0 to 336'; for 201 and 202 what 5 digits can say; a 301 has none.
pub fn most_rates(format: Format) -> u32
    ensures { result ≡ most_rates format }
{
    match format {
        Format::F201 | Format::F202 => LARGEST_COUNT,
        Format::F203 => UPDATE_RATES,
        Format::F301 => 0,
    }
}

// 'for 203 a flag digit'.
pub fn flag_digits(format: Format) -> usize
    ensures exact { result ≡ flag_digits format }
    ensures bound { result ≤ 1 }
{
    if format == Format::F203 {
        FLAG_DIGITS
    } else {
        0
    }
}

// 'for 203 next access YYYYMMDDhhmmss'.
pub fn next_digits(format: Format) -> usize
    ensures exact { result ≡ next_digits format }
    ensures bound { result ≤ 14 }
{
    if format == Format::F203 {
        NEXT_DIGITS
    } else {
        0
    }
}

// The digits after the rates: flag, checksum, next access.
pub fn tail_digits(format: Format) -> usize
    ensures exact { result ≡ tail_digits format }
    ensures bound { result ≤ 17 }
{
    flag_digits(format) + CHECKSUM_DIGITS + next_digits(format)
}

// The bytes of the format's records beside their rates.
pub fn fixed_bytes(format: Format) -> usize
    ensures exact { result ≡ count_of format * (rates_place + tail_digits format) }
    ensures bound { result ≤ 715 }
{
    record_count(format) as usize * (RATES + tail_digits(format))
}

// Whether a file of the format has records of rates.
pub fn is_schedule(format: Format) -> bool
    ensures { result ≡ is_schedule format }
{
    format != Format::F301
}
