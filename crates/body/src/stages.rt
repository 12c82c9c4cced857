// Stages 11, 12 and 13 of a record: its rates, its checksum and its plant ID.
ghost use Rattle.std.specs.Prelude.{◌≡◌};
ghost use Rattle.layout.specs.Walk.{record_of};
ghost use Rattle.body.specs.Records.{rates_fit, checksum_holds, plant_fits};

use layout::Parts;
use rules::HIGHEST_RATE;

// Whether no rate of the record is above 100.
pub(crate) fn rates_hold(parts: &Parts) -> bool
    ensures { result ≡ rates_fit (record_of parts.now) }
{
    digits::all_at_most(parts.rates, HIGHEST_RATE)
}

// Whether its checksum is right: 'The flag isn't summed' (01, Names and bodies).
pub(crate) fn checksum_holds(parts: &Parts) -> bool
    ensures { result ≡ checksum_holds (record_of parts.now) }
{
    let place = layout::flag_digits(parts.format);
    let sum = layout::checksum(parts.start(), parts.rates);
    calendar::pair(parts.tail, place) == sum
}

// Whether its plant ID is that one.
pub(crate) fn plant_holds(plant: &[u8], parts: &Parts) -> bool
    ensures { result ≡ plant_fits plant.now (record_of parts.now) }
{
    digits::same(parts.plant(), plant)
}
