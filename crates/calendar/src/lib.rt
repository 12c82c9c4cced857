// The calendar of 2000 to 2099: seconds, slots, days and months, and dates in digits. Every answer equals its definition in `rules`.
#![tactic(auto)]

mod dates;
mod months;

pub use dates::{month_begun, pair, read_moment, start_slot};
pub use months::{days_of_month, first_slot, month_of, month_of_slot, slot_of, time_of_day};
