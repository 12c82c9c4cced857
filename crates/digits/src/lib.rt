// Bytes as digits: whether they are some, the number that they stand for, sums and comparisons; and bytes put into a buffer. Scans keep a flag or
// the greatest byte, and do not leave early; the number of a few digits does.
#![tactic(auto)]

mod buffer;

ghost use Rattle.std.specs.Prelude.{◌≡◌, ◌≤◌, length};
ghost use Rattle.rules.specs.Digits.{all_at_most, all_ascii, same_bytes};
ghost use Rattle.rules.specs.File.{sum};
ghost use Rattle.digits.specs.Decimal.{decimal_of, ascii_of, number_from, rates_sum};

pub use buffer::put;

// As many digits as a date and time have; 64 bits hold their number.
const MOST_DIGITS: usize = 14;

const HIGHEST_DIGIT: u64 = 9;

// Whether every byte of `s` is at most `most`: the greatest is, which takes one vector operation for 16 bytes.
#[tactic(auto, using(crate::proofs::Scan::greatest_step, crate::proofs::Scan::flag_end))]
pub fn all_at_most(s: &[u8], most: u8) -> bool
    ensures { result ≡ all_at_most most s.now }
{
    let mut worst: u8 = 0;
    for &x in s {
        worst = worst.max(x);
    }
    worst <= most
}

// The same by a flag, which takes less for each byte of a few, as a date's, that fill no vector.
#[tactic(auto, using(crate::proofs::Scan::flag_step, crate::proofs::Scan::flag_end))]
pub fn few_at_most(s: &[u8], most: u8) -> bool
    ensures { result ≡ all_at_most most s.now }
{
    let mut all = true;
    for &x in s {
        all &= x <= most;
    }
    all
}

// Whether every byte of `s` is an ASCII digit.
#[tactic(auto, using(crate::proofs::Scan::ascii_step, crate::proofs::Scan::ascii_end))]
pub fn all_ascii(s: &[u8]) -> bool
    ensures { result ≡ all_ascii s.now }
{
    let mut all = true;
    for &x in s {
        all &= x.is_ascii_digit();
    }
    all
}

// Whether `a` and `b` are the same bytes.
// By a flag: the library's `==` was tried, and where the length is known when compiled it calls a comparison of groups. For the 26 bytes of a
// plant ID, two vectors here, that takes 5.5 ns in the place of 2.3.
#[tactic(auto, using(crate::proofs::Scan::same_length))]
pub fn same(a: &[u8], b: &[u8]) -> bool
    ensures { result ≡ same_bytes a.now b.now }
{
    if a.len() != b.len() {
        return false;
    }
    let mut all = true;
    for (x, y) in a.iter().zip(b) {
        all &= x == y;
    }
    all
}

// The number that at most 14 digits stand for, the highest first: the byte ZERO is the digit 0, and the nine after it are the others.
#[tactic(auto, unfolding(crate::specs::Decimal::number_from))]
fn number_from<const ZERO: u8>(s: &[u8]) -> Option<u64>
    requires { ZERO ≤ 246 }
    ensures { result ≡ number_from ZERO s.now }
{
    if MOST_DIGITS < s.len() {
        return None;
    }
    let mut value: u64 = 0;
    for &x in s {
        let d = x.wrapping_sub(ZERO) as u64;
        if HIGHEST_DIGIT < d {
            return None;
        }
        value = value * 10 + d;
    }
    Some(value)
}

// The number that at most 14 bytes of value 0 to 9 stand for.
#[tactic(auto, using(crate::proofs::Scan::digits_from))]
pub fn number(s: &[u8]) -> Option<u64>
    ensures { result ≡ decimal_of s.now }
{
    number_from::<0>(s)
}

// The number that at most 14 ASCII digits stand for.
#[tactic(auto, using(crate::proofs::Scan::ascii_from))]
pub fn ascii_number(s: &[u8]) -> Option<u64>
    ensures { result ≡ ascii_of s.now }
{
    number_from::<b'0'>(s)
}

// As many bytes as 16 bits can sum.
const STRETCH: usize = 256;

// The sum of a stretch, in 16 bits: twice as many bytes are added at once as in 32.
#[tactic(auto, using(crate::proofs::Scan::sum_step, crate::proofs::Scan::sum_end))]
fn stretch_sum(s: &[u8]) -> u16
    requires { length s.now ≤ 256 }
    ensures { result ≡ sum s.now }
{
    let mut total: u16 = 0;
    for &x in s {
        total += x as u16;
    }
    total
}

// The sum of the bytes of `s`, of which a record has at most 99,999. Whole stretches come first: their length is known when they are compiled.
#[tactic(auto, unfolding(crate::specs::Decimal::rates_sum))]
pub fn sum(s: &[u8]) -> u32
    ensures { result ≡ rates_sum s.now }
{
    if 99999 < s.len() {
        return 0;
    }
    let mut total: u32 = 0;
    let stretches = s.chunks_exact(STRETCH);
    let rest = stretches.remainder();
    for stretch in stretches {
        total += stretch_sum(stretch) as u32;
    }
    total + stretch_sum(rest) as u32
}
