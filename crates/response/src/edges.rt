// The boundary, and the bytes that it stands in: the first line, and what closes the file.
ghost use Rattle.std.specs.Prelude.{◌≡◌, is_some};
ghost use Rattle.rules.specs.Response.{letter_or_digit, lawful_boundary, opening, closing, strip, end_in};
ghost use Rattle.response.specs.Lent.{lent};

use crate::lines::{LINE_END, strip};

const MOST_BOUNDARY: usize = 70;

const HYPHENS: [u8; 2] = *b"--";

fn letter_or_digit(x: u8) -> bool
    ensures { result ≡ letter_or_digit x }
{
    ((b'0' <= x) & (x <= b'9')) | ((b'A' <= x) & (x <= b'Z')) | ((b'a' <= x) & (x <= b'z'))
}

// '1 to 70 ASCII letters or digits'
pub(crate) fn lawful_boundary(b: &[u8]) -> bool
    ensures { result ≡ lawful_boundary b.now }
{
    if MOST_BOUNDARY < b.len() {
        return false;
    }
    let mut all = true;
    for x in b {
        all = all & letter_or_digit(*x);
    }
    (1 <= b.len()) & all
}

// What follows the first line, where it is `--` and the boundary.
pub(crate) fn opened<'a>(s: &'a [u8], b: &[u8]) -> Option<&'a [u8]>
    ensures { lent result ≡ strip (opening b.now) s.now }
{
    let edge = strip(s, &HYPHENS)?;
    strip(strip(edge, b)?, &LINE_END)
}

// What follows that which closes a file.
fn past_closing<'a>(s: &'a [u8], b: &[u8]) -> Option<&'a [u8]>
    ensures { lent result ≡ strip (closing b.now) s.now }
{
    let line = strip(s, &LINE_END)?;
    let edge = strip(line, &HYPHENS)?;
    strip(strip(edge, b)?, &HYPHENS)
}

// Whether `s` is what closes a file, with at most one more end of a line.
pub(crate) fn closed(s: &[u8], b: &[u8]) -> bool
    ensures { result ≡ is_some (end_in b.now s.now) }
{
    match past_closing(s, b) {
        Some(rest) => rest.is_empty() | digits::same(rest, &LINE_END),
        None => false,
    }
}
