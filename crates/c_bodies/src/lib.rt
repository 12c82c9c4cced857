// A body taken apart, as C asks for it and gets it: by the number of its format, where the fields of a record stand, and the rates end to end.
#![tactic(auto)]

ghost use Rattle.std.specs.Prelude.{◌≡◌, length};
ghost use Rattle.rules.specs.Name.{format_of};
ghost use Rattle.rules.specs.Writer.{written_of, buffer_after};
ghost use Rattle.c_bodies.specs.Bodies.{locate_by, rates_by};
ghost use Rattle.c_bodies.specs.Places.{places_numbers};

use records::Places;
use rules::{Cause, Format};

// 6, 7 and 9, as `records::locate` has them; 7 for a number that is no format's: C gives formats by their numbers.
pub fn located(format: u32, body: &[u8], index: usize) -> Result<Places, Cause>
    ensures { result ≡ locate_by (format_of format) body.now index }
{
    records::locate(Format::try_from(format)?, body, index)
}

// 7, 9 and 15, as `records::copy_rates` has them; 7 for a number that is no format's.
pub fn copied(format: u32, body: &[u8], out: &mut [u8]) -> Result<usize, Cause>
    ensures answer { result ≡ written_of (rates_by (format_of format) body.now (length out.old)) }
    ensures buffer { out.new ≡ buffer_after (rates_by (format_of format) body.now (length out.old)) out.old }
{
    records::copy_rates(Format::try_from(format)?, body, out)
}

// Where a record's fields stand: places that are 0 where it is refused, or has no such field, and 0 or a cause's number.
#[repr(C)]
#[derive(Clone, Copy, Debug, Default, PartialEq, Eq)]
pub struct RecordPlaces {
    pub schedule: usize,
    pub plant: usize,
    pub start: usize,
    pub rates: usize,
    pub count: usize,
    pub flag: usize,
    pub checksum: usize,
    pub next: usize,
    pub cause: u32,
}

impl From<Result<Places, Cause>> for RecordPlaces {
    ghost from_gives = { λ located n. n ≡ places_numbers located };

    fn from(located: Result<Places, Cause>) -> RecordPlaces {
        match located {
            Ok(places) => RecordPlaces {
                schedule: places.schedule,
                plant: places.plant,
                start: places.start,
                rates: places.rates,
                count: places.count,
                flag: places.flag.unwrap_or(0),
                checksum: places.checksum,
                next: places.next.unwrap_or(0),
                cause: 0,
            },
            Err(cause) => RecordPlaces {
                cause: u32::from(cause),
                ..RecordPlaces::default()
            },
        }
    }
}
