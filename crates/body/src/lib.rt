// The body of a file, read under its name: each of the causes 9 to 13 is looked for in all records before the next.
#![tactic(auto)]

mod accepted;
mod date_stage;
mod stages;

ghost use Rattle.std.specs.Prelude.{◌≡◌, true};
ghost use Rattle.rules.specs.Body.{parse_rest, parse_body, is_schedule};
ghost use Rattle.rules.specs.File.{with_body};
ghost use Rattle.rules.specs.Reading.{reading_of};
ghost use Rattle.rules.specs.declared.Format.TheVariants.{F301};
ghost use Rattle.body.specs.Reading.{name_of};

use layout::Records;
use rules::{Cause, Format, Summary};

// The records of a schedule, under a name with that format, segment and plant.
fn read_schedule(format: Format, segment: u16, plant: &[u8], s: &[u8]) -> Result<Summary, Cause>
    requires { is_schedule format ≡ true }
    ensures { result ≡ reading_of (with_body (name_of format segment plant.now) (parse_rest format s.now)) }
{
    if !form::records_stand(format, s) {
        return Err(Cause::Form);
    }
    let records = Records::new(format, layout::record_count(format), s);
    if !date_stage::dates_hold(segment, records) {
        return Err(Cause::Date);
    }
    let mut rated = records;
    if !rated.all(|parts| stages::rates_hold(&parts)) {
        return Err(Cause::Rate);
    }
    let mut summed = records;
    if !summed.all(|parts| stages::checksum_holds(&parts)) {
        return Err(Cause::Checksum);
    }
    let mut named = records;
    if !named.all(|parts| stages::plant_holds(plant, &parts)) {
        return Err(Cause::RecordPlant);
    }
    Ok(accepted::schedule_summary(format, segment, s))
}

// A registration, under a name with that segment and plant.
fn read_registration(segment: u16, plant: &[u8], s: &[u8]) -> Result<Summary, Cause>
    ensures { result ≡ reading_of (with_body (name_of F301 segment plant.now) (parse_rest F301 s.now)) }
{
    if !form::registration_stands(s) {
        return Err(Cause::Form);
    }
    if !digits::same(&s[0..layout::RESULT], plant) {
        return Err(Cause::RecordPlant);
    }
    Ok(Summary {
        format: Format::F301,
        segment: segment % accepted::SEGMENTS,
        records: 1,
        rates: 0,
        start: None,
        update: None,
        result: Some(s[layout::RESULT]),
    })
}

// What `body` says under a name with that format, segment and plant, or the lowest of the causes 9 to 13 that applies.
pub fn read_body(format: Format, segment: u16, plant: &[u8], body: &[u8]) -> Result<Summary, Cause>
    ensures { result ≡ reading_of (with_body (name_of format segment plant.now) (parse_body format body.now)) }
{
    if !form::count_holds(format, body) {
        return Err(Cause::Form);
    }
    let s = &body[layout::RECORDS..];
    if layout::is_schedule(format) {
        return read_schedule(format, segment, plant, s);
    }
    read_registration(segment, plant, s)
}
