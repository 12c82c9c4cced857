// Seconds, slots, days and months as numbers: 48 months are always 1,461 days, so a table of 48 months gives every other one.
ghost use Rattle.std.specs.Prelude.{◌≡◌, true, ◌≤◌, ◌<◌};
ghost use Rattle.rules.specs.Calendar.{days_of_month, first_day, first_slot, month_of_day, month_of_slot, slot_of, month_of, time_of_day};
ghost use Rattle.calendar.specs.Cycle.{right_table, Within};

use rules::{DAY_COUNT, DAY_LENGTH, LONGEST_MONTH, MONTH_COUNT, SLOT_LENGTH, SLOTS_OF_DAY};

// 2000 to 2099.
pub const FIRST_YEAR: u32 = 2000;

pub const YEARS: u32 = 100;

pub const MONTHS_OF_YEAR: u32 = 12;

const FEBRUARY: u32 = 1;

// Four years, the first a leap year.
const CYCLE_YEARS: u32 = 4;

const CYCLE_MONTHS: u32 = CYCLE_YEARS * MONTHS_OF_YEAR;

const CYCLE_DAYS: u32 = CYCLE_YEARS * 365 + 1;

// January to December, of a year that is not a leap year.
const MONTH_DAYS: [u16; 12] = [31, 28, 31, 30, 31, 30, 31, 31, 30, 31, 30, 31];

// The days before each month of four years; the last entry is all of them.
const DAYS_BEFORE: [u16; 49] = [
    0, 31, 60, 91, 121, 152, 182, 213, 244, 274, 305, 335, 366, 397, 425, 456, 486, 517, 547, 578,
    609, 639, 670, 700, 731, 762, 790, 821, 851, 882, 912, 943, 974, 1004, 1035, 1065, 1096, 1127,
    1155, 1186, 1216, 1247, 1277, 1308, 1339, 1369, 1400, 1430, 1461,
];

// The days of a month.
#[tactic(auto, unfolding(rules::specs::Calendar::days_of_month))]
pub fn days_of_month(month: u16) -> u16
    ensures { result ≡ days_of_month month }
{
    let number = month as u32;
    let place = number % MONTHS_OF_YEAR;
    let year = FIRST_YEAR + number / MONTHS_OF_YEAR;
    let leap = (place == FEBRUARY) & (year % CYCLE_YEARS == 0);
    MONTH_DAYS[place as usize] + leap as u16
}

// The days before a month of four years, from their table.
#[tactic(auto, using(crate::proofs::Search::table_is))]
fn entry(table: &[u16; 49], month: usize) -> u32
    requires { (right_table table.now ≡ true) × (month ≤ 48) }
    ensures { result ≡ first_day month }
{
    table[month] as u32
}

// The days before a month of the first four years.
fn days_before(month: u32) -> u32
    requires { month ≤ 48 }
    ensures { result ≡ first_day month }
{
    entry(&DAYS_BEFORE, month as usize)
}

// The days before a month.
#[tactic(auto, using(crate::proofs::Laws::first_day_most, crate::proofs::Laws::first_split))]
pub fn first_day(month: u16) -> u32
    ensures { result ≡ first_day month }
{
    let number = month as u32;
    CYCLE_DAYS * (number / CYCLE_MONTHS) + days_before(number % CYCLE_MONTHS)
}

// The first slot of a month.
#[tactic(auto, using(crate::proofs::Laws::first_day_most))]
pub fn first_slot(month: u16) -> u32
    ensures { result ≡ first_slot month }
{
    SLOTS_OF_DAY * first_day(month)
}

// The month of a day of the first four years. No month is longer than 31 days and 48 months lack fewer than 31 days
// of 48 such months, so the day divided by 31 is the month or the one before it.
#[tactic(auto, using(crate::proofs::Search::guess_next, crate::proofs::Search::guess_here))]
fn month_of_cycle(day: u32) -> u32
    requires { day < 1461 }
    ensures { Within 48 day result }
{
    let guess = day / LONGEST_MONTH;
    if days_before(guess + 1) <= day {
        guess + 1
    } else {
        guess
    }
}

// The month of a day; `MONTH_COUNT` from the end of 2099 on.
#[tactic(auto, using(crate::proofs::Laws::day_past, crate::proofs::Search::day_is))]
fn month_of_day(day: u32) -> u16
    ensures { result ≡ month_of_day day }
{
    if DAY_COUNT <= day {
        return MONTH_COUNT;
    }
    (CYCLE_MONTHS * (day / CYCLE_DAYS) + month_of_cycle(day % CYCLE_DAYS)) as u16
}

// The month of a slot; `MONTH_COUNT` from the end of 2099 on.
pub fn month_of_slot(slot: u32) -> u16
    ensures { result ≡ month_of_slot slot }
{
    month_of_day(slot / SLOTS_OF_DAY)
}

// The slot of a second.
pub fn slot_of(second: u32) -> u32
    ensures { result ≡ slot_of second }
{
    second / SLOT_LENGTH
}

// The month of a second; `MONTH_COUNT` from the end of 2099 on.
pub fn month_of(second: u32) -> u16
    ensures { result ≡ month_of second }
{
    month_of_day(second / DAY_LENGTH)
}

// Seconds since midnight.
pub fn time_of_day(second: u32) -> u32
    ensures { result ≡ time_of_day second }
{
    second % DAY_LENGTH
}
