// The records of a body, one after the other: the walk that each of its readers goes.
ghost use Rattle.std.specs.Prelude.{◌≡◌, ◌≤◌, ◌<◌, length, drop};
ghost use Rattle.std.specs.Iterator.{at_most};
ghost use Rattle.std.specs.Option.{MatchOption};
ghost use Rattle.rules.specs.Body.{tail_digits, size_of};
ghost use Rattle.layout.specs.Places.{rates_place};

use crate::formats::{flag_digits, tail_digits};
use crate::places::{CHECKSUM_DIGITS, PLANT, RATE_COUNT, RATES, START};
use crate::record::rate_count;
use rules::Format;

// A record: the 53 digits before its rates, its rates, and the digits after them.
#[derive(Clone, Copy)]
pub struct Parts<'a> {
    pub format: Format,
    pub head: &'a [u8],
    pub rates: &'a [u8],
    pub tail: &'a [u8],
    pub ghost begins: { length head.now ≡ rates_place },
    // Five bytes of 255 say no more.
    pub ghost few: { length rates.now ≤ 2833305 },
    pub ghost ends: { length tail.now ≡ tail_digits format },
}

impl<'a> Parts<'a> {
    ghost use Rattle.layout.specs.Walk.{Front, record_of};

    // The record at the front of `s`, and what follows it; none where bytes of it are missing.
    fn split_from(format: Format, s: &'a [u8]) -> Option<(Parts<'a>, &'a [u8])>
        ensures { MatchOption result (length s.now < size_of format s.now) (λ p. Front format s.now p.0 × (p.1.now ≡ drop (size_of format s.now) s.now)) }
    {
        let (head, after) = s.split_at_checked(RATES)?;
        let (rates, after) = after.split_at_checked(rate_count(s) as usize)?;
        let (tail, rest) = after.split_at_checked(tail_digits(format))?;
        let parts = Parts {
            format,
            head,
            rates,
            tail,
        };
        Some((parts, rest))
    }

    // Its plant ID.
    pub fn plant(&self) -> &'a [u8]
        ensures { result.now ≡ (record_of self.now).plant }
    {
        &self.head[PLANT..START]
    }

    // Its start.
    pub fn start(&self) -> &'a [u8]
        ensures { result.now ≡ (record_of self.now).start }
    {
        &self.head[START..RATE_COUNT]
    }

    // Its next access; empty where the format has none.
    pub fn next_access(&self) -> &'a [u8]
        ensures { result.now ≡ (record_of self.now).next }
    {
        let at = flag_digits(self.format) + CHECKSUM_DIGITS;
        &self.tail[at..]
    }
}

// At most so many records of a format, which stand in bytes one after the other: those that are all there.
#[derive(Clone, Copy)]
pub struct Records<'a> {
    pub format: Format,
    pub left: u32,
    // What follows those that were given.
    pub rest: &'a [u8],
}

impl<'a> Records<'a> {
    pub fn new(format: Format, count: u32, s: &'a [u8]) -> Records<'a>
        ensures format { result.format ≡ format }
        ensures left { result.left ≡ count }
        ensures rest { result.rest.now ≡ s.now }
    {
        Records {
            format,
            left: count,
            rest: s,
        }
    }
}

impl<'a> Iterator for Records<'a> {
    ghost use Rattle.layout.specs.Walk.{Goes};

    type Item = Parts<'a>;

    ghost next_gives = { Goes };

    ghost remaining = { λ s. at_most s.left };

    fn next(&mut self) -> Option<Parts<'a>> {
        let left = self.left.checked_sub(1)?;
        let (parts, rest) = Parts::split_from(self.format, self.rest)?;
        self.left = left;
        self.rest = rest;
        Some(parts)
    }
}
