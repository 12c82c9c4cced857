// Enums as the numbers that 01 and 002 give them, and back: a cause of refusal, a format.
ghost use Rattle.std.specs.Prelude.{◌≡◌};
ghost use Rattle.std.specs.Option.{ok_or};
ghost use Rattle.rules.specs.Causes.{number_of};
ghost use Rattle.rules.specs.Name.{format_of, format_number};
ghost use Rattle.rules.specs.declared.Cause.{Cause as CauseOf};

use crate::{Cause, Format};

// The number in 01's table, and in 02.
impl From<Cause> for u32 {
    ghost from_gives = { λ cause n. n ≡ number_of cause };

    fn from(cause: Cause) -> u32 {
        match cause {
            Cause::PlantId => 1,
            Cause::Setting => 2,
            Cause::StoreLength => 3,
            Cause::Unsound => 4,
            Cause::ClockUnset => 5,
            Cause::Range => 6,
            Cause::Name => 7,
            Cause::OtherPlant => 8,
            Cause::Form => 9,
            Cause::Date => 10,
            Cause::Rate => 11,
            Cause::Checksum => 12,
            Cause::RecordPlant => 13,
            Cause::Full => 14,
            Cause::Buffer => 15,
            Cause::ErrorFile => 16,
            Cause::Response => 17,
        }
    }
}

// The three digits that a name of the format begins with.
impl From<Format> for u32 {
    ghost from_gives = { λ format n. n ≡ format_number format };

    fn from(format: Format) -> u32 {
        match format {
            Format::F201 => 201,
            Format::F202 => 202,
            Format::F203 => 203,
            Format::F301 => 301,
        }
    }
}

// The format of a number; cause 7 for one that is no format's.
impl TryFrom<u32> for Format {
    type Error = Cause;

    ghost try_from_gives = { λ n r. r ≡ ok_or (format_of n) CauseOf.Name };

    #[tactic(auto, unfolding(crate::specs::Name::format_of))]
    fn try_from(number: u32) -> Result<Format, Cause> {
        match number {
            201 => Ok(Format::F201),
            202 => Ok(Format::F202),
            203 => Ok(Format::F203),
            301 => Ok(Format::F301),
            _ => Err(Cause::Name),
        }
    }
}
