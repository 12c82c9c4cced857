// How long the fields of a body are, and where each begins (01, Names and bodies).

// 'In bodies a digit is one byte of value 0 to 9'.
pub const HIGHEST_DIGIT: u8 = 9;

// 'A body is a 6-digit record count, then the records'.
pub const RECORDS: usize = 6;

// 'schedule ID 10 digits, plant ID 26, start YYYYMMDDhhmm 12, rate count n 5'.
pub const SCHEDULE_DIGITS: usize = 10;

pub const PLANT_DIGITS: usize = 26;

pub const START_DIGITS: usize = 12;

pub const COUNT_DIGITS: usize = 5;

// Where they begin in a record, which begins with the schedule ID; 'n rates' follow.
pub const PLANT: usize = SCHEDULE_DIGITS;

pub const START: usize = PLANT + PLANT_DIGITS;

pub const RATE_COUNT: usize = START + START_DIGITS;

pub const RATES: usize = RATE_COUNT + COUNT_DIGITS;

// 'for 203 a flag digit, then checksum 2 digits, then for 203 next access YYYYMMDDhhmmss'.
pub const FLAG_DIGITS: usize = 1;

pub const CHECKSUM_DIGITS: usize = 2;

pub const NEXT_DIGITS: usize = 14;

// '301: count 1, plant ID, result 0 registered or 1 not': where the result stands after the count.
pub const RESULT: usize = PLANT_DIGITS;
