// A file's name (01, Names and bodies): its format and segment, the digits of its plant ID, and whether it keeps the form.
#![tactic(auto)]

ghost use Rattle.std.specs.Prelude.{◌≡◌, true, ◌&&◌, ◌+◌, ◌-◌, ◌≤◌, length, Some};
ghost use Rattle.rules.specs.Digits.{part, digits, value, all_ascii, from_ascii, same_bytes};
ghost use Rattle.rules.specs.Calendar.{exists};
ghost use Rattle.rules.specs.Name.{parse_name, name_shape, name_with, any_segment};
ghost use Rattle.name.specs.Read.{name_read, plant_digits, fits};

use rules::Format;

// 'A name has 55 ASCII bytes: format, _, segment of 4 digits, _, plant ID, _, creation time YYYYMMDDhhmmss, and the five
// letters .data end it'.
const FORMAT_LENGTH: usize = 3;

const SEGMENT_LENGTH: usize = 4;

const PLANT_LENGTH: usize = 26;

const CREATED_LENGTH: usize = 14;

// Where each field starts, and where it ends.
const FORMAT: usize = 0;

const FORMAT_END: usize = FORMAT + FORMAT_LENGTH;

const SEGMENT: usize = FORMAT_END + 1;

const SEGMENT_END: usize = SEGMENT + SEGMENT_LENGTH;

const PLANT: usize = SEGMENT_END + 1;

const PLANT_END: usize = PLANT + PLANT_LENGTH;

const CREATED: usize = PLANT_END + 1;

const CREATED_END: usize = CREATED + CREATED_LENGTH;

const NAME_LENGTH: usize = CREATED_END + 5;

// What stands between the fields, and at the end.
const UNDERSCORE: [u8; 1] = *b"_";

const DOT_DATA: [u8; 5] = *b".data";

// What a name says of its file; the segment's four digits as a number.
#[derive(Clone, Copy, Debug, PartialEq, Eq)]
pub struct Fields {
    pub format: Format,
    pub segment: u16,
}

// Digits in ASCII as values; 0 of a byte below them. Copied and then changed in place: of bytes written through a `zip` a proof knows nothing.
fn values(to: &mut [u8], ascii: &[u8])
    requires { length to.old ≡ length ascii.now }
    ensures { to.new ≡ from_ascii ascii.now }
{
    to.copy_from_slice(ascii);
    for x in to.iter_mut() {
        *x = x.saturating_sub(b'0');
    }
}

// The number that at most four ASCII digits stand for.
#[tactic(auto, using(crate::proofs::Ascii::number_is, crate::proofs::Ascii::four_digits))]
fn number(ascii: &[u8]) -> u16
    requires { (length ascii.now ≤ 4) × (all_ascii ascii.now ≡ true) }
    ensures { result ≡ value (from_ascii ascii.now) }
{
    digits::ascii_number(ascii).unwrap_or(0) as u16
}

// '201 with 999 and any digit; 202 with YYMM (20YY, MM 01-12); 203 with 0000; 301 with 8888'.
fn fits(format: Format, segment: u16) -> bool
    ensures { result ≡ fits format segment }
{
    match format {
        Format::F201 => segment / 10 == 999,
        Format::F202 => (1 <= segment % 100) & (segment % 100 <= 12),
        Format::F203 => segment == 0,
        Format::F301 => segment == 8888,
    }
}

// Whether the bytes from one place up to another are ASCII digits.
fn are_digits(name: &[u8], start: usize, end: usize) -> bool
    requires { (start ≤ end) × (end ≤ length name.now) }
    ensures { result ≡ all_ascii (part name.now start (end - start)) }
{
    digits::all_ascii(&name[start..end])
}

// Whether a fixed byte string stands at a place.
fn stands(name: &[u8], start: usize, fixed: &[u8]) -> bool
    requires { start + length fixed.now ≤ length name.now }
    ensures { result ≡ same_bytes (part name.now start (length fixed.now)) fixed.now }
{
    let end = start + fixed.len();
    digits::same(&name[start..end], fixed)
}

// Whether the bytes are digits, underscores and .data where a name has them.
#[tactic(auto, unfolding(rules::specs::Name::name_shape))]
fn has_shape(name: &[u8]) -> bool
    ensures { result ≡ name_shape name.now }
{
    if name.len() != NAME_LENGTH {
        return false;
    }
    are_digits(name, FORMAT, FORMAT_END)
        & stands(name, FORMAT_END, &UNDERSCORE)
        & are_digits(name, SEGMENT, SEGMENT_END)
        & stands(name, SEGMENT_END, &UNDERSCORE)
        & are_digits(name, PLANT, PLANT_END)
        & stands(name, PLANT_END, &UNDERSCORE)
        & are_digits(name, CREATED, CREATED_END)
        & stands(name, CREATED_END, &DOT_DATA)
}

// Whether 14 ASCII bytes are a date that exists.
#[tactic(auto, using(crate::proofs::Laws::date_some))]
fn is_date(ascii: &[u8]) -> bool
    requires { length ascii.now ≡ 14 }
    ensures { result ≡ (digits 14 (from_ascii ascii.now) && exists (from_ascii ascii.now)) }
{
    let mut created = [0u8; CREATED_LENGTH];
    values(&mut created, ascii);
    calendar::read_moment(&created).is_some()
}

// The fields of bytes with a name's shape, of that format.
#[tactic(auto, using(crate::proofs::Laws::name_long, crate::proofs::Laws::name_digits, crate::proofs::Laws::lawful_is))]
fn read_as(format: Format, name: &[u8]) -> Option<Fields>
    requires { name_shape name.now ≡ true }
    ensures { result ≡ name_read (name_with (Some format) name.now) }
{
    let segment = number(&name[SEGMENT..SEGMENT_END]);
    (fits(format, segment) & is_date(&name[CREATED..CREATED_END])).then_some(Fields {
        format,
        segment,
    })
}

// The fields of a name, from any bytes; None where they break the form (cause 7).
#[tactic(auto, unfolding(rules::specs::Name::parse_name), using(crate::proofs::Laws::name_long, crate::proofs::Laws::name_digits))]
pub fn read_name(name: &[u8]) -> Option<Fields>
    ensures { result ≡ name_read (parse_name name.now) }
{
    if !has_shape(name) {
        return None;
    }
    let digits = number(&name[FORMAT..FORMAT_END]);
    let format = Format::try_from(digits as u32).ok()?;
    read_as(format, name)
}

// The digits of a name's plant ID, as values; zeros where the bytes are not as many as a name has.
#[tactic(auto, unfolding(crate::specs::Read::plant_digits))]
pub fn plant_digits(name: &[u8]) -> [u8; PLANT_LENGTH]
    ensures { result ≡ plant_digits name.now }
{
    let mut plant = [0u8; PLANT_LENGTH];
    if name.len() != NAME_LENGTH {
        return plant;
    }
    values(&mut plant, &name[PLANT..PLANT_END]);
    plant
}

// Whether the bytes are a segment that some name may have: four ASCII digits that fit a format.
#[tactic(auto, unfolding(rules::specs::Name::any_segment), using(crate::proofs::Laws::segment_any))]
pub fn is_segment(segment: &[u8]) -> bool
    ensures { result ≡ any_segment segment.now }
{
    let length = SEGMENT_LENGTH;
    if segment.len() != length {
        return false;
    }
    if !digits::all_ascii(segment) {
        return false;
    }
    let value = number(segment);
    // Each by itself: `any` over an array of the formats is no shorter here, and its proof is longer.
    fits(Format::F201, value)
        | fits(Format::F202, value)
        | fits(Format::F203, value)
        | fits(Format::F301, value)
}
