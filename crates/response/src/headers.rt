// The header lines, walked once: 'Each of Content-Length and Content-Disposition must begin exactly one header line, spelt so, before
// a colon and a space; other lines are skipped'.
ghost use Rattle.std.specs.Prelude.{◌≡◌};
ghost use Rattle.rules.specs.Response.{begins};
ghost use Rattle.response.specs.Marks.{marked_by, both_of, HeadersRead};

use crate::lines::{begins, split_line};

// Where the digits of a length begin in its line.
pub(crate) const SIZE_FROM: usize = 16;

pub(crate) const CONTENT_LENGTH: [u8; SIZE_FROM] = *b"Content-Length: ";

pub(crate) const CONTENT_DISPOSITION: [u8; 21] = *b"Content-Disposition: ";

// What the lines so far say of one that begins so: no line did, this one did, or more than one.
#[derive(Clone, Copy)]
pub(crate) enum Mark<'a> {
    Never,
    Once(&'a [u8]),
    Twice,
}

// Both lines, and what follows the headers.
#[derive(Clone, Copy)]
pub(crate) struct Headers<'a> {
    pub(crate) size: &'a [u8],
    pub(crate) name: &'a [u8],
    pub(crate) rest: &'a [u8],
}

// The mark after one more line.
fn marked<'a>(before: Mark<'a>, p: &[u8], line: &'a [u8]) -> Mark<'a>
    ensures { result ≡ marked_by (begins p.now line.now) before.entry line.entry }
{
    if !begins(line, p) {
        return before;
    }
    match before {
        Mark::Never => Mark::Once(line),
        Mark::Once(_) => Mark::Twice,
        Mark::Twice => Mark::Twice,
    }
}

// Both lines, where each is there once.
fn both<'a>(size: Mark<'a>, name: Mark<'a>, rest: &'a [u8]) -> Option<Headers<'a>>
    ensures { result ≡ both_of size.entry name.entry rest.entry }
{
    match (size, name) {
        (Mark::Once(size), Mark::Once(name)) => Some(Headers { size, name, rest }),
        _ => None,
    }
}

// The headers at the front of `s`, where they keep the form.
pub(crate) fn read(s: &[u8]) -> Option<Headers<'_>>
    ensures { HeadersRead s.now result }
{
    let mut t = s;
    let mut size = Mark::Never;
    let mut name = Mark::Never;
    while let Some((line, rest)) = split_line(t) {
        if line.is_empty() {
            return both(size, name, rest);
        }
        size = marked(size, &CONTENT_LENGTH, line);
        name = marked(name, &CONTENT_DISPOSITION, line);
        t = rest;
    }
    None
}
