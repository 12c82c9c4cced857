// What the schedule unit's answers are made of. specs/ says what each one means, rule by rule of document 01.
#![tactic(auto)]

mod lengths;
mod numbers;

pub use lengths::{
    BLOCK_COUNT, BLOCK_LENGTH, DAY_COUNT, DAY_LENGTH, END_OF_TIME, FLOOR_LAG, HIGHEST_RATE,
    LAST_MONTH, LONGEST_MONTH, LONGEST_WAIT, MONTH_COUNT, NO_RATE, SLOT_COUNT, SLOT_LENGTH,
    SLOTS_OF_DAY, STORE_LENGTH,
};

// Why a call is refused: a case for each number of 01's table, then of 02, in their order.
#[derive(Clone, Copy, Debug, PartialEq, Eq)]
pub enum Cause {
    PlantId,
    Setting,
    StoreLength,
    Unsound,
    ClockUnset,
    Range,
    Name,
    OtherPlant,
    Form,
    Date,
    Rate,
    Checksum,
    RecordPlant,
    Full,
    Buffer,
    ErrorFile,
    Response,
}

// The ceiling of a slot that has a rate: the rate, in percent of C, and the percent of the inverter's capacity.
#[derive(Clone, Copy, Debug, PartialEq, Eq)]
pub struct Ceiling {
    pub rate: u8,
    pub percent: u8,
}

// What is due, where something is: the update schedule, or the fixed schedule of a flag.
#[derive(Clone, Copy, Debug, PartialEq, Eq)]
pub enum Due {
    Update,
    Fixed(u8),
}

// What is kept of a file that reads well: what a unit or a lister needs of it. A schedule has a start, a 203 its flag and next access, a 301 a result.
#[derive(Clone, Copy, Debug, PartialEq, Eq)]
pub struct Summary {
    pub format: Format,
    pub segment: u16,
    pub records: u32,
    pub rates: u32,
    pub start: Option<u32>,
    pub update: Option<Update>,
    pub result: Option<u8>,
}

// The flag of a 203, and its next access in seconds.
#[derive(Clone, Copy, Debug, PartialEq, Eq)]
pub struct Update {
    pub flag: u8,
    pub next_access: u32,
}

// The kind of schedule whose request failed.
#[derive(Clone, Copy, Debug, PartialEq, Eq)]
pub enum Kind {
    Update,
    Fixed,
}

// The format of a file: the yearly, the monthly and the update schedule, and the ID registration.
#[derive(Clone, Copy, Debug, PartialEq, Eq)]
pub enum Format {
    F201,
    F202,
    F203,
    F301,
}
