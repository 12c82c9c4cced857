// The words of a line: 'Words are parted by one space'. Where two spaces meet, and where a line begins or ends with one, a word is empty.
ghost use Rattle.std.specs.Prelude.{◌≡◌, ◌≤◌, length};
ghost use Rattle.script_words.specs.Words.{place_of, word_at, word_count};

const SPACE: u8 = 32;

// The place of the first such byte, or the length where there is none.
pub fn place(s: &[u8], byte: u8) -> usize
    ensures exact { result ≡ place_of byte s.now }
    ensures bound { result ≤ length s.now }
{
    let wanted = byte;
    s.iter().position(|&x| x == wanted).unwrap_or(s.len())
}

// Word k of a line, the first of them word 0; an empty one where there are not so many.
pub fn word(s: &[u8], k: usize) -> &[u8]
    ensures { result.now ≡ word_at k s.now }
{
    let mut t = s;
    for _ in 0..k {
        // past the space, or at the end where there is none
        let start = (place(t, SPACE) + 1).min(t.len());
        t = &t[start..];
    }
    let end = place(t, SPACE);
    &t[..end]
}

// How many words a line has: one more than spaces.
pub fn word_count(s: &[u8]) -> usize
    ensures { result ≡ word_count s.now }
{
    // A `for`, which looks at many bytes at once: `filter(..).count()` takes them one by one.
    let mut count = 1;
    for &x in s {
        if x == SPACE {
            count += 1;
        }
    }
    count
}
