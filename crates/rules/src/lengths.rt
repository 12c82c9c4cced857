// The numbers of 01 that crates share, each by the name that specs/ has for it.

// 'A slot is 1,800 s'; 48 slots are a day.
pub const SLOT_LENGTH: u32 = 1800;

pub const SLOTS_OF_DAY: u32 = 48;

pub const DAY_LENGTH: u32 = SLOTS_OF_DAY * SLOT_LENGTH;

// 'Below T = 3,155,760,000 (end of 2099)': 100 years are 36,525 days.
pub const DAY_COUNT: u32 = 36525;

pub const SLOT_COUNT: u32 = DAY_COUNT * SLOTS_OF_DAY;

// T.
pub const END_OF_TIME: u32 = SLOT_COUNT * SLOT_LENGTH;

// 'f and u below T + 172,800'.
pub const LONGEST_WAIT: u32 = 172800;

// 'Months are numbered from January 2000 = 0 to 1199'.
pub const MONTH_COUNT: u16 = 1200;

pub const LAST_MONTH: u16 = MONTH_COUNT - 1;

// The days of the longest months.
pub const LONGEST_MONTH: u32 = 31;

// 'A rate is one byte 0 to 100'.
pub const HIGHEST_RATE: u8 = 100;

// 'The store is 23,808 lent bytes: 16 blocks of 1,488'.
pub const BLOCK_COUNT: usize = 16;

pub const BLOCK_LENGTH: usize = (SLOTS_OF_DAY * LONGEST_MONTH) as usize;

pub const STORE_LENGTH: usize = BLOCK_COUNT * BLOCK_LENGTH;

// 'Byte i is the rate of its slot i, 255 where no file gave one': a number for none, since the store is bytes.
pub const NO_RATE: u8 = 255;

// 'Floor first becomes the greater of itself and the clock's month - 1'.
pub const FLOOR_LAG: u16 = 1;
