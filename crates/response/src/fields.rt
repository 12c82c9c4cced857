// What the two header lines say: the file's length, and its name.
ghost use Rattle.std.specs.Prelude.{◌≡◌, length, drop};
ghost use Rattle.rules.specs.Response.{content_length, length_in, behind};
ghost use Rattle.response.specs.Lent.{lent};

use crate::headers::SIZE_FROM;
use crate::lines::begins;

// 'what follows the first `filename=`'
pub(crate) const FILE_NAME: [u8; 9] = *b"filename=";

// How many digits a length has at most.
const MOST_DIGITS: usize = 6;

// 'The length is 1 to 6 decimal digits', of a Content-Length line.
pub(crate) fn size_in(line: &[u8]) -> Option<usize>
    ensures { result ≡ length_in (drop (length content_length) line.now) }
{
    if line.len() <= SIZE_FROM {
        return None;
    }
    if SIZE_FROM + MOST_DIGITS < line.len() {
        return None;
    }
    let n = digits::ascii_number(&line[SIZE_FROM..])?;
    Some(n as usize)
}

// What follows the first `p`.
pub(crate) fn name_in<'a>(s: &'a [u8], p: &[u8]) -> Option<&'a [u8]>
    ensures { lent result ≡ behind p.now s.now }
{
    let at = (0..s.len()).find(|&i| begins(&s[i..], p))?;
    Some(&s[at + p.len()..])
}
