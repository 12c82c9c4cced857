// Reading a name and body (01, Names and bodies): without a plant, for a plant, and to be taken by its unit.
#![tactic(auto)]

ghost use Rattle.std.specs.Prelude.{◌≡◌, None, Some};
ghost use Rattle.rules.specs.File.{read_file, take_file};
ghost use Rattle.rules.specs.Reading.{reading_of};
ghost use Rattle.transfer.specs.Under.{under_name, for_plant};

use name::Fields;
use rules::{Cause, Summary};

// Cause 8 where the name's ID does not fit, else what the body says under the name's fields.
#[tactic(auto, unfolding(rules::specs::Reading::reading_of))]
fn read_under(fields: Fields, fits: bool, id: &[u8], body: &[u8]) -> Result<Summary, Cause>
    ensures { result ≡ reading_of (under_name fits fields id.now body.now) }
{
    if !fits {
        return Err(Cause::OtherPlant);
    }
    body::read_body(fields.format, fields.segment, id, body)
}

// What a name and body say, read without a plant: the name's ID has its check digit.
#[tactic(auto, using(crate::proofs::Under::read_as))]
pub fn read(name: &[u8], body: &[u8]) -> Result<Summary, Cause>
    ensures { result ≡ reading_of (read_file None name.now body.now) }
{
    let fields = name::read_name(name).ok_or(Cause::Name)?;
    let id = name::plant_digits(name);
    read_under(fields, plant::is_plant_id(&id), &id, body)
}

// The same under a name that was read for a plant: the name's ID is the plant's.
fn read_named(fields: Fields, plant: &[u8], name: &[u8], body: &[u8]) -> Result<Summary, Cause>
    ensures { result ≡ reading_of (for_plant fields plant.now name.now body.now) }
{
    let id = name::plant_digits(name);
    read_under(fields, digits::same(&id, plant), &id, body)
}

// What a name and body say, read for a plant.
#[tactic(auto, using(crate::proofs::Under::read_as))]
pub fn read_for(plant: &[u8], name: &[u8], body: &[u8]) -> Result<Summary, Cause>
    ensures { result ≡ reading_of (read_file (Some plant.now) name.now body.now) }
{
    let fields = name::read_name(name).ok_or(Cause::Name)?;
    read_named(fields, plant, name, body)
}

// What a name and body say to the unit of a plant that takes them: 301 is not taken.
#[tactic(auto, using(crate::proofs::Under::take_as))]
pub fn read_to_take(plant: &[u8], name: &[u8], body: &[u8]) -> Result<Summary, Cause>
    ensures { result ≡ reading_of (take_file plant.now name.now body.now) }
{
    let taken = name::read_name(name)
        .filter(|read| layout::is_schedule(read.format))
        .ok_or(Cause::Name)?;
    read_named(taken, plant, name, body)
}
