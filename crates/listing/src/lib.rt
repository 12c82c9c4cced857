// The lister's line (01, Beside the unit): what it prints for a name, byte 0A and a body.
#![tactic(auto)]

ghost use Rattle.std.specs.Prelude.{◌≡◌, ◌+◌, ◌<◌, ◌≤◌, [], ◌∷◌, ◌++◌, length, Ok, Err};
ghost use Rattle.rules.specs.Lister.{name_part, numeral, line};
ghost use Rattle.listing.specs.Line.{room, line_in, put_in, puts, text_of, Printable};

use rules::{Cause, Summary};

// As many bytes as a line has room for.
const ROOM: usize = 20;

// Ends a line, and parts name and body.
const NEW_LINE: u8 = 10;

// The byte behind a name.
const NAME_END: u8 = NEW_LINE;

// How the two kinds of line begin, filled up with zeros.
const OK: [u8; ROOM] = *b"ok \0\0\0\0\0\0\0\0\0\0\0\0\0\0\0\0\0";

const REFUSED: [u8; ROOM] = *b"refused \0\0\0\0\0\0\0\0\0\0\0\0";

// A line: its bytes, then zeros, and its length: the memory is fixed, and there is no heap.
#[derive(Clone, Copy)]
pub struct Line {
    pub bytes: [u8; ROOM],
    pub length: usize,
}

// The line with a byte more.
fn put(mut line: Line, byte: u8) -> Line
    requires { line.length < room }
    ensures { result ≡ put_in line byte }
{
    let at = line.length;
    line.bytes[at] = byte;
    line.length = at + 1;
    line
}

// The line with a number more, in ASCII without zeros before it.
#[tactic(auto, using(crate::proofs::Puts::digit_by_digit))]
fn number(line: Line, n: u64) -> Line
    requires { line.length + length (numeral n) ≤ room }
    ensures { result ≡ puts line (numeral n) }
{
    let last = (n % 10) as u8 + b'0';
    if n < 10 {
        return put(line, last);
    }
    put(number(line, n / 10), last)
}

// The line with a number more, and the byte behind it.
#[tactic(auto, using(crate::proofs::Puts::puts_length, crate::proofs::Puts::put_behind))]
fn field(line: Line, n: u32, behind: u8) -> Line
    requires { line.length + length (numeral n) < room }
    ensures { result ≡ puts line (numeral n ++ (behind ∷ [])) }
{
    put(number(line, n as u64), behind)
}

// A number by itself, in ASCII without zeros before it.
#[tactic(auto, using(crate::proofs::Numeral::numeral_wide))]
pub fn decimal(n: u64) -> Line
    ensures { result ≡ line_in (numeral n) }
{
    let start = Line {
        bytes: [0; ROOM],
        length: 0,
    };
    number(start, n)
}

// `ok`, format, records and total rates.
#[tactic(auto, using(crate::proofs::Texts::short_fields))]
fn ok_line(file: Summary) -> Line
    requires { Printable (Ok file) }
    ensures { result ≡ line_in (text_of (Ok file)) }
{
    let start = Line {
        bytes: OK,
        length: 3,
    };
    let with_format = field(start, u32::from(file.format), b' ');
    let with_records = field(with_format, file.records, b' ');
    field(with_records, file.rates, NEW_LINE)
}

// `refused` and the cause's number.
#[tactic(auto, using(crate::proofs::Numeral::numeral_two, crate::proofs::Short::cause_small))]
fn refused_line(cause: Cause) -> Line
    ensures { result ≡ line_in (text_of (Err cause)) }
{
    let start = Line {
        bytes: REFUSED,
        length: 8,
    };
    field(start, u32::from(cause), NEW_LINE)
}

// Where the name ends: the place of the first 0A, or the length where there is none.
fn name_end(input: &[u8]) -> usize
    ensures { result ≡ length (name_part input.now) }
{
    input
        .iter()
        .position(|x| *x == NAME_END)
        .unwrap_or(input.len())
}

// The line of what was read, or of the cause of its refusal.
fn reading_line(reading: Result<Summary, Cause>) -> Line
    requires { Printable reading }
    ensures { result ≡ line_in (text_of reading) }
{
    match reading {
        Ok(file) => ok_line(file),
        Err(cause) => refused_line(cause),
    }
}

// What the lister prints for its input.
#[tactic(auto, using(crate::proofs::Split::name_within, crate::proofs::Split::name_before))]
pub fn line_of(input: &[u8]) -> Line
    ensures { result ≡ line_in (line input.now) }
{
    let end = name_end(input);
    // Past the 0A, or at the end where there is none.
    let start = (end + 1).min(input.len());
    reading_line(transfer::read(&input[..end], &input[start..]))
}
