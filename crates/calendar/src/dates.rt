// Dates in digits: YYYYMMDDhhmmss as a second, and a start, YYYYMMDDhhmm, as a slot, or as the month that it begins.
ghost use Rattle.std.specs.Prelude.{◌≡◌, ◌||◌, ◌≤◌, eqb, length};
ghost use Rattle.rules.specs.Digits.{part, value};
ghost use Rattle.rules.specs.Calendar.{moment, start_slot, whole_minute};
ghost use Rattle.calendar.specs.Moments.{month_begun, month_exists, day_exists, time_exists, Dated, second_at};

use crate::months::{FIRST_YEAR, MONTHS_OF_YEAR, YEARS, days_of_month, first_day, slot_of};
use rules::DAY_LENGTH;

// 'a digit is one byte of value 0 to 9' (01, Names and bodies).
const HIGHEST_DIGIT: u8 = 9;

const MOMENT_DIGITS: usize = 14;

const START_DIGITS: usize = 12;

// 'Every date here has a year 2000 to 2099 and must exist' (01, Names and bodies).
const LAST_YEAR: u32 = FIRST_YEAR + YEARS - 1;

const MINUTE: u32 = 60;

const MINUTES_OF_HOUR: u32 = 60;

const HOUR: u32 = MINUTES_OF_HOUR * MINUTE;

const HOURS_OF_DAY: u32 = 24;

// 'start minute 00 or 30' (01, Names and bodies).
const HALF_HOUR: u32 = 30;

// 'the start is day 01, 00:00' (01, Names and bodies): the digits of a start from its day on.
const DAY_PLACE: usize = 6;

const MONTH_BEGINS: [u8; 6] = [0, 1, 0, 0, 0, 0];

// The number of the two digits at place i, or of those that are there.
#[tactic(auto, using(crate::proofs::Scan::pair_none, crate::proofs::Scan::pair_one, crate::proofs::Scan::pair_is))]
pub fn pair(s: &[u8], i: usize) -> u32
    ensures exact { result ≡ value (part s.now i 2) }
    ensures bound { result ≤ 2805 }
{
    if s.len() <= i {
        return 0;
    }
    let first = s[i] as u32;
    if s.len() - i < 2 {
        return first;
    }
    first * 10 + s[i + 1] as u32
}

// Whether there is such a month of such a year.
fn is_month(year: u32, month: u32) -> bool
    ensures { result ≡ month_exists year month }
{
    (FIRST_YEAR <= year) & (year <= LAST_YEAR) & (1 <= month) & (month <= MONTHS_OF_YEAR)
}

// Whether the month has the day.
fn is_day(month: u16, day: u32) -> bool
    ensures { result ≡ day_exists month day }
{
    (1 <= day) & (day <= days_of_month(month) as u32)
}

// Whether a day has the time.
fn is_time(hour: u32, minute: u32, second: u32) -> bool
    ensures { result ≡ time_exists hour minute second }
{
    (hour < HOURS_OF_DAY) & (minute < MINUTES_OF_HOUR) & (second < MINUTE)
}

// Whether a slot starts at the minute.
fn is_half_hour(minute: u32) -> bool
    ensures { result ≡ (eqb minute 0 || eqb minute 30) }
{
    (minute == 0) | (minute == HALF_HOUR)
}

// The second of a date that exists.
fn second_at(month: u16, day: u32, hour: u32, minute: u32, second: u32) -> u32
    requires { Dated month day hour minute second }
    ensures { result ≡ second_at month day hour minute second }
{
    DAY_LENGTH * (first_day(month) + (day - 1)) + (HOUR * hour + MINUTE * minute + second)
}

// The second of a date of 14 digits; None where `digits` are no date that exists.
#[tactic(auto, unfolding(rules::specs::Calendar::moment), using(crate::proofs::DateLaws::date_is))]
pub fn read_moment(digits: &[u8]) -> Option<u32>
    ensures { result ≡ moment digits.now }
{
    if digits.len() != MOMENT_DIGITS {
        return None;
    }
    if !digits::few_at_most(digits, HIGHEST_DIGIT) {
        return None;
    }
    let year = 100 * pair(digits, 0) + pair(digits, 2);
    let month = pair(digits, 4);
    if !is_month(year, month) {
        return None;
    }
    let number = (MONTHS_OF_YEAR * (year - FIRST_YEAR) + (month - 1)) as u16;
    let day = pair(digits, 6);
    let hour = pair(digits, 8);
    let minute = pair(digits, 10);
    let second = pair(digits, 12);
    if !(is_day(number, day) & is_time(hour, minute, second)) {
        return None;
    }
    Some(second_at(number, day, hour, minute, second))
}

// The 12 digits of a minute, with second 00.
fn whole_minute(digits: &[u8]) -> [u8; 14]
    requires { length digits.now ≡ 12 }
    ensures { result ≡ whole_minute digits.now }
{
    let mut whole = [0u8; MOMENT_DIGITS];
    whole[..START_DIGITS].copy_from_slice(digits);
    whole
}

// The slot that begins at a date of 12 digits; None where `digits` are no date that exists, or the minute is not 00 or 30.
#[tactic(auto, unfolding(rules::specs::Calendar::start_slot), using(crate::proofs::DateLaws::whole_is))]
pub fn start_slot(digits: &[u8]) -> Option<u32>
    ensures { result ≡ start_slot digits.now }
{
    if digits.len() != START_DIGITS {
        return None;
    }
    let whole = whole_minute(digits);
    let second = read_moment(&whole)?;
    is_half_hour(pair(digits, 10)).then_some(slot_of(second))
}

// The month that begins at a date of 12 digits, on day 01 at 00:00; None where `start` is no such date.
#[tactic(auto, unfolding(crate::specs::Moments::month_begun), using(crate::proofs::DateLaws::year_is, crate::proofs::Begins::begun_is))]
pub fn month_begun(start: &[u8]) -> Option<u16>
    ensures { result ≡ month_begun start.now }
{
    if start.len() != START_DIGITS {
        return None;
    }
    let year = 100 * pair(start, 0) + pair(start, 2);
    let month = pair(start, 4);
    let begins = digits::same(&start[DAY_PLACE..START_DIGITS], &MONTH_BEGINS);
    if !(digits::few_at_most(start, HIGHEST_DIGIT) & is_month(year, month) & begins) {
        return None;
    }
    Some((MONTHS_OF_YEAR * (year - FIRST_YEAR) + (month - 1)) as u16)
}
