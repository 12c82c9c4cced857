// The words that stand for bytes: 'ID, MAC, NAME, BOUNDARY and SEGMENT may each be `hex:` and hex digits', and the digits of a body or a response.
ghost use Rattle.std.specs.Prelude.{◌≡◌, map, ◌≤◌, length};
ghost use Rattle.std.proofs.Math.Seq.{paste};
ghost use Rattle.script_fields.specs.Field.{plain_byte, hex_field, plain_field, bytes_field, digits_field, body_field, field_in, buffer_with};

const MARK: [u8; 4] = *b"hex:";

// The word of an empty body or response.
const NO_BYTES: [u8; 1] = *b"-";

// Puts the bytes of hex digits into the buffer's first bytes.
fn unhex(digits: &[u8], out: &mut [u8]) -> Option<usize>
    ensures answer { result ≡ field_in (length out.old) (hex_field digits.now) }
    ensures buffer { out.new ≡ buffer_with (hex_field digits.now) out.old }
{
    if !crate::hex::is_hex(digits) {
        return None;
    }
    let count = digits.len() / 2;
    if out.len() < count {
        return None;
    }
    crate::hex::put_bytes(digits, out);
    Some(count)
}

// A byte of a plain word; of a plain ID 0-9 are their values.
fn plain_byte(x: u8, digits: bool) -> u8
    ensures { result ≡ plain_byte digits x }
{
    if digits & ((b'0' <= x) & (x <= b'9')) {
        x - b'0'
    } else {
        x
    }
}

// Puts the bytes of a plain word into the buffer's first bytes, which has room for them.
fn put_plain(word: &[u8], digits: bool, out: &mut [u8])
    requires { length word.now ≤ length out.old }
    ensures { out.new ≡ paste out.old 0 (map (plain_byte digits) word.now) (length word.now) }
{
    // By an index: `out.iter_mut().zip(word)` was tried, but the prover knows nothing of what is written through an adapter of `iter_mut`.
    for (i, &x) in word.iter().enumerate() {
        out[i] = plain_byte(x, digits);
    }
}

// The bytes of a word, plain or marked.
fn either(word: &[u8], digits: bool, out: &mut [u8]) -> Option<usize>
    ensures answer { result ≡ field_in (length out.old) (plain_field digits word.now) }
    ensures buffer { out.new ≡ buffer_with (plain_field digits word.now) out.old }
{
    if let Some(digits) = word.strip_prefix(&MARK) {
        return unhex(digits, out);
    }
    if word.is_empty() {
        return None;
    }
    if out.len() < word.len() {
        return None;
    }
    put_plain(word, digits, out);
    Some(word.len())
}

// The bytes of a MAC, a NAME, a BOUNDARY or a SEGMENT in the buffer's first bytes, and how many they are. A broken word, and one that stands
// for more bytes than the buffer has, leaves the buffer as it was.
pub fn bytes_of(word: &[u8], out: &mut [u8]) -> Option<usize>
    ensures answer { result ≡ field_in (length out.old) (bytes_field word.now) }
    ensures buffer { out.new ≡ buffer_with (bytes_field word.now) out.old }
{
    either(word, false, out)
}

// The same for an ID.
pub fn digits_of(word: &[u8], out: &mut [u8]) -> Option<usize>
    ensures answer { result ≡ field_in (length out.old) (digits_field word.now) }
    ensures buffer { out.new ≡ buffer_with (digits_field word.now) out.old }
{
    either(word, true, out)
}

// The same for a body or a response: its hex digits, or `-` for none.
pub fn hex_of(word: &[u8], out: &mut [u8]) -> Option<usize>
    ensures answer { result ≡ field_in (length out.old) (body_field word.now) }
    ensures buffer { out.new ≡ buffer_with (body_field word.now) out.old }
{
    if word == NO_BYTES.as_slice() {
        return Some(0);
    }
    if word.is_empty() {
        return None;
    }
    unhex(word, out)
}
