// The layout of a body (01, Names and bodies), for all that read or write one: where a record's fields stand, the numbers of each format,
// and what a record's digits say of its length, its checksum and its dates.
#![tactic(auto)]

mod dates;
mod formats;
mod places;
mod record;
mod walk;

pub use dates::{is_update, is_whole_month, segment_month};
pub use formats::{
    LONGEST_BODY, fixed_bytes, flag_digits, is_schedule, most_rates, next_digits, record_count,
    tail_digits,
};
pub use places::{
    CHECKSUM_DIGITS, COUNT_DIGITS, FLAG_DIGITS, HIGHEST_DIGIT, NEXT_DIGITS, PLANT, PLANT_DIGITS,
    RATE_COUNT, RATES, RECORDS, RESULT, SCHEDULE_DIGITS, START, START_DIGITS,
};
pub use record::{checksum, rate_count, record_size};
pub use walk::{Parts, Records};
