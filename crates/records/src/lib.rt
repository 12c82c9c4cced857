// The records of a body (01, Names and bodies): where the fields of each stand, a field as that part of the body, and the rates end to end.
#![tactic(auto)]

mod copying;
mod walk;

ghost use Rattle.std.specs.Prelude.{◌≡◌, length};
ghost use Rattle.rules.specs.Writer.{written_of, buffer_after};
ghost use Rattle.records.specs.Standing.{standing};
ghost use Rattle.records.specs.Locating.{locate, Piece};
ghost use Rattle.records.specs.Reading.{field_in, record_in, rates_output};

use rules::{Cause, Format};

// Where in its body the fields of a record begin, and how many rates it has. A 201 or 202 has no flag and no next access.
#[derive(Clone, Copy)]
pub struct Places {
    pub schedule: usize,
    pub plant: usize,
    pub start: usize,
    pub rates: usize,
    pub count: usize,
    pub flag: Option<usize>,
    pub checksum: usize,
    pub next: Option<usize>,
}

// A field of a record.
#[derive(Clone, Copy)]
pub enum Field {
    Schedule,
    Plant,
    Start,
    Rates,
    Flag,
    Checksum,
    Next,
}

// A part of a body: where it begins, and its length.
#[derive(Clone, Copy)]
struct Part {
    from: usize,
    size: usize,
}

// Whether `body` is the records of the format with their count before them.
fn stands(format: Format, body: &[u8]) -> bool
    ensures { result ≡ standing format body.now }
{
    if !form::count_holds(format, body) {
        return false;
    }
    form::records_stand(format, &body[layout::RECORDS..])
}

// Where the fields of record `index` stand, the first one being 0. Causes: 6 for an index not below the format's record count,
// 7 for a format that has no rates, 9 for a body that breaks its form.
pub fn locate(format: Format, body: &[u8], index: usize) -> Result<Places, Cause>
    ensures { result ≡ locate format body.now index }
{
    if layout::record_count(format) as usize <= index {
        return Err(Cause::Range);
    }
    if !layout::is_schedule(format) {
        return Err(Cause::Name);
    }
    if !stands(format, body) {
        return Err(Cause::Form);
    }
    Ok(walk::places_in(format, body, index))
}

// The part that a field takes.
fn part_of(field: Field, format: Format, places: Places) -> Part
    ensures { Piece field format places result.from result.size }
{
    match field {
        Field::Schedule => Part {
            from: places.schedule,
            size: layout::SCHEDULE_DIGITS,
        },
        Field::Plant => Part {
            from: places.plant,
            size: layout::PLANT_DIGITS,
        },
        Field::Start => Part {
            from: places.start,
            size: layout::START_DIGITS,
        },
        Field::Rates => Part {
            from: places.rates,
            size: places.count,
        },
        Field::Flag => Part {
            from: places.flag.unwrap_or(0),
            size: layout::flag_digits(format),
        },
        Field::Checksum => Part {
            from: places.checksum,
            size: layout::CHECKSUM_DIGITS,
        },
        Field::Next => Part {
            from: places.next.unwrap_or(0),
            size: layout::next_digits(format),
        },
    }
}

// A field of record `index` as that part of the body; the empty part where there is no such record, or the format has no such field.
pub fn field_part(field: Field, format: Format, body: &[u8], index: usize) -> &[u8]
    ensures { result.now ≡ field_in field (record_in format body.now index) }
{
    let Ok(places) = locate(format, body, index) else {
        return &body[0..0];
    };
    let part = part_of(field, format, places);
    let from = part.from;
    let end = from + part.size;
    &body[from..end]
}

// The rates of all records end to end in the buffer's first bytes, as the writer takes them, and how many they are. Causes: 7 for
// a format that has no rates, 9 for a body that breaks its form, 15 for a buffer too short for them; the buffer is then as it was.
pub fn copy_rates(format: Format, body: &[u8], out: &mut [u8]) -> Result<usize, Cause>
    ensures answer { result ≡ written_of (rates_output format body.now (length out.old)) }
    ensures buffer { out.new ≡ buffer_after (rates_output format body.now (length out.old)) out.old }
{
    if !layout::is_schedule(format) {
        return Err(Cause::Name);
    }
    if !stands(format, body) {
        return Err(Cause::Form);
    }
    let s = &body[layout::RECORDS..];
    let length = s.len() - layout::fixed_bytes(format);
    let room = out.len();
    if room < length {
        return Err(Cause::Buffer);
    }
    copying::put_rates(format, s, out);
    Ok(length)
}
