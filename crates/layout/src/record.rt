// What the digits of a record say: its rate count and length, and the checksum of its rates.
ghost use Rattle.std.specs.Prelude.{◌≡◌, ◌≤◌, ◌%◌};
ghost use Rattle.layout.specs.Records.{count_at, size_at, checksum_for};

use crate::formats::tail_digits;
use crate::places::{RATE_COUNT, RATES};
use rules::Format;

// A start is YYYYMMDDhhmm: where its month and its day stand.
const MONTH: usize = 4;

const DAY: usize = 6;

// The rate count of the record at the front of `s`; 0 of fewer bytes than stand before its rates. Five bytes of 255 say 2,833,305.
pub fn rate_count(s: &[u8]) -> u32
    ensures exact { result ≡ count_at s.now }
    ensures bound { result ≤ 2833305 }
{
    if s.len() < RATES {
        return 0;
    }
    10000 * s[RATE_COUNT] as u32
        + 1000 * s[RATE_COUNT + 1] as u32
        + 100 * s[RATE_COUNT + 2] as u32
        + 10 * s[RATE_COUNT + 3] as u32
        + s[RATE_COUNT + 4] as u32
}

// How long the record at the front of `s` is.
pub fn record_size(format: Format, s: &[u8]) -> usize
    ensures { result ≡ size_at format s.now }
{
    RATES + rate_count(s) as usize + tail_digits(format)
}

// 'sum of the rates modulo (month + day of the start)' (01, Names and bodies), of at most 99,999 rates.
pub fn checksum(start: &[u8], rates: &[u8]) -> u32
    ensures { result ≡ checksum_for start.now rates.now }
{
    let sum = digits::sum(rates);
    let modulus = calendar::pair(start, MONTH) + calendar::pair(start, DAY);
    sum.checked_rem(modulus).unwrap_or(sum)
}
