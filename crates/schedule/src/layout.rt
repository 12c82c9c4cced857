// Numbers of 01 as wide as a place in a slice.

pub const SLOT_COUNT: usize = rules::SLOT_COUNT as usize;

pub const SLOTS_OF_DAY: usize = rules::SLOTS_OF_DAY as usize;
