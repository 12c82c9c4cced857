// The answers of questions, of reading, of writing and of the error file as C gets them: 0 or a cause's number, and numbers that are 0 where it is
// refused.
#![tactic(auto)]

ghost use Rattle.std.specs.Prelude.{◌≡◌};
ghost use Rattle.c_answers.specs.Answers.{due_numbers, ceiling_numbers, command_number, written_numbers, file_numbers};

use rules::{Cause, Ceiling, Due, Summary};

#[repr(C)]
#[derive(Clone, Copy, Debug, PartialEq, Eq)]
pub struct Number {
    pub cause: u32,
    pub value: u32,
}

#[repr(C)]
#[derive(Clone, Copy, Debug, PartialEq, Eq)]
pub struct WrittenBytes {
    pub length: usize,
    pub cause: u32,
}

// kind is 0 for nothing, 1 for the update, 2 for the fixed schedule of that flag.
#[repr(C)]
#[derive(Clone, Copy, Debug, Default, PartialEq, Eq)]
pub struct DueAnswer {
    pub cause: u32,
    pub kind: u32,
    pub flag: u32,
}

#[repr(C)]
#[derive(Clone, Copy, Debug, Default, PartialEq, Eq)]
pub struct CeilingAnswer {
    pub cause: u32,
    pub has_rate: u32,
    pub rate: u32,
    pub percent: u32,
}

#[repr(C)]
#[derive(Clone, Copy, Debug, Default, PartialEq, Eq)]
pub struct FileAnswer {
    pub cause: u32,
    pub format: u32,
    pub segment: u32,
    pub records: u32,
    pub rates: u32,
    pub start: u32,
    pub flag: u32,
    pub next_access: u32,
    pub result: u32,
}

#[repr(C)]
#[derive(Clone, Copy, Debug, Default, PartialEq, Eq)]
pub struct ErrorAnswer {
    pub text_at: usize,
    pub text_length: usize,
    pub cause: u32,
    pub code: u32,
}

// The command in parts, or how many blocks are free.
impl From<Result<u32, Cause>> for Number {
    ghost from_gives = { λ answer n. n ≡ command_number answer };

    fn from(answer: Result<u32, Cause>) -> Number {
        match answer {
            Ok(value) => Number { cause: 0, value },
            Err(cause) => Number {
                cause: u32::from(cause),
                value: 0,
            },
        }
    }
}

// How many bytes were written.
impl From<Result<usize, Cause>> for WrittenBytes {
    ghost from_gives = { λ written n. n ≡ written_numbers written };

    fn from(written: Result<usize, Cause>) -> WrittenBytes {
        match written {
            Ok(length) => WrittenBytes { length, cause: 0 },
            Err(cause) => WrittenBytes {
                length: 0,
                cause: u32::from(cause),
            },
        }
    }
}

// What is due.
impl From<Result<Option<Due>, Cause>> for DueAnswer {
    ghost from_gives = { λ due n. n ≡ due_numbers due };

    fn from(due: Result<Option<Due>, Cause>) -> DueAnswer {
        match due {
            Ok(Some(Due::Update)) => DueAnswer {
                kind: 1,
                ..DueAnswer::default()
            },
            Ok(Some(Due::Fixed(flag))) => DueAnswer {
                kind: 2,
                flag: u32::from(flag),
                ..DueAnswer::default()
            },
            Ok(None) => DueAnswer::default(),
            Err(cause) => DueAnswer {
                cause: u32::from(cause),
                ..DueAnswer::default()
            },
        }
    }
}

// The ceiling of a slot.
impl From<Result<Option<Ceiling>, Cause>> for CeilingAnswer {
    ghost from_gives = { λ ceiling n. n ≡ ceiling_numbers ceiling };

    fn from(ceiling: Result<Option<Ceiling>, Cause>) -> CeilingAnswer {
        match ceiling {
            Ok(Some(rated)) => CeilingAnswer {
                cause: 0,
                has_rate: 1,
                rate: u32::from(rated.rate),
                percent: u32::from(rated.percent),
            },
            Ok(None) => CeilingAnswer::default(),
            Err(cause) => CeilingAnswer {
                cause: u32::from(cause),
                ..CeilingAnswer::default()
            },
        }
    }
}

// What a file says; 0 where its format has none.
impl From<Result<Summary, Cause>> for FileAnswer {
    ghost from_gives = { λ reading n. n ≡ file_numbers reading };

    fn from(reading: Result<Summary, Cause>) -> FileAnswer {
        match reading {
            Ok(summary) => FileAnswer {
                cause: 0,
                format: u32::from(summary.format),
                segment: u32::from(summary.segment),
                records: summary.records,
                rates: summary.rates,
                start: summary.start.unwrap_or(0),
                flag: summary.update.map_or(0, |update| u32::from(update.flag)),
                next_access: summary.update.map_or(0, |update| update.next_access),
                result: summary.result.map_or(0, u32::from),
            },
            Err(cause) => FileAnswer {
                cause: u32::from(cause),
                ..FileAnswer::default()
            },
        }
    }
}
