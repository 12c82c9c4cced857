// Numbers in groups of seven bits, low group first, top bit set on all groups but the last (02, §2).
// What is read is exactly what is put: a number has one form, the shortest, and no other bytes are read as it.
#![tactic(auto)]

ghost use Rattle.std.specs.Prelude.{◌≡◌, ◌+◌, ◌≤◌, ◌<◌, ◌^◌, length};
ghost use Rattle.std.proofs.Math.Seq.{sets};
ghost use Rattle.rules.specs.Groups.{groups};
ghost use Rattle.groups.specs.Placed.{reading_at, size_of, bytes_after, place_after};

// A number and the place after it.
#[derive(Clone, Copy, Debug, PartialEq, Eq)]
pub struct Number {
    pub value: u64,
    pub next: usize,
}

// 'at most five groups'.
const MOST: usize = 5;

// A group's top bit, which says that another follows: as many values as a group has.
const MORE: u64 = 128;

// What the last group of several is not: the form would not be the shortest.
const EMPTY: u64 = 0;

// Five groups hold the numbers below this.
const LIMIT: u64 = 1 << 35;

// The number whose groups stand at place `at`; none where they are cut, not in the shortest form, or of a sixth group.
pub fn read(s: &[u8], at: usize) -> Option<Number>
    ensures { result ≡ reading_at s.now at }
{
    let first = *s.get(at)? as u64;
    if first < MORE {
        return Some(Number {
            value: first,
            next: at + 1,
        });
    }
    let end = s.len().min(at + MOST);
    let mut value = first - MORE;
    let mut unit = MORE;
    for (i, &byte) in s[at + 1..end].iter().enumerate() {
        let group = byte as u64;
        if group == EMPTY {
            return None;
        }
        if group < MORE {
            return Some(Number {
                value: value + unit * group,
                next: at + 2 + i,
            });
        }
        value += unit * (group - MORE);
        unit *= MORE;
    }
    None
}

// How many bytes a number has; none where it has no groups.
pub fn checked_size(n: u64) -> Option<usize>
    ensures { result ≡ size_of (groups n) }
{
    if n < 1 << 7 {
        return Some(1);
    }
    if n < 1 << 14 {
        return Some(2);
    }
    if n < 1 << 21 {
        return Some(3);
    }
    if n < 1 << 28 {
        return Some(4);
    }
    if n < LIMIT {
        return Some(5);
    }
    None
}

// The same as a length; 0 where it has no groups.
#[tactic(auto, using(crate::proofs::Putting::as_length))]
pub fn size(n: u64) -> usize
    ensures { result ≡ length (groups n) }
{
    checked_size(n).unwrap_or(0)
}

// Puts a number that has groups where there is room for them.
fn place(n: u64, out: &mut [u8], at: usize) -> usize
    requires { (n < 2 ^ 35) × (at + length (groups n) ≤ length out.old) }
    ensures next { result ≡ at + length (groups n) }
    ensures bytes { out.new ≡ sets out.old at (groups n) }
{
    let mut left = n;
    let mut i = at;
    // A while, since what is left of the number ends it: a `for` over the bytes of `out` is no plainer, as it needs a way out.
    while MORE <= left {
        out[i] = (left % MORE + MORE) as u8;
        left = left / MORE;
        i += 1;
    }
    out[i] = left as u8;
    i + 1
}

// Puts a number's bytes at place `at`, and answers the place after them; none where they do not all fit, or there are none, and nothing changes.
pub fn put(n: u64, out: &mut [u8], at: usize) -> Option<usize>
    ensures next { result ≡ place_after (groups n) out.old at }
    ensures bytes { out.new ≡ bytes_after (groups n) out.old at }
{
    let length = checked_size(n)?;
    if out.len().checked_sub(at)? < length {
        return None;
    }
    Some(place(n, out, at))
}
