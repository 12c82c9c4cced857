// Answers as text: bytes, a number or hex digits put into a buffer from a place on. What does not fit is left out whole.
ghost use Rattle.std.specs.Prelude.{◌≡◌, ◌+◌, ◌*◌, ◌≤◌, length};
ghost use Rattle.std.proofs.Math.Seq.{paste};
ghost use Rattle.rules.specs.Lister.{numeral};
ghost use Rattle.script_fields.specs.Hex.{hex_text};
ghost use Rattle.script_fields.specs.Put.{place_after, buffer_after};

// Puts the hex digits of bytes from a place on.
fn copy_hex(bytes: &[u8], out: &mut [u8], at: usize)
    requires { at + 2 * length bytes.now ≤ length out.old }
    ensures { out.new ≡ paste out.old at (hex_text bytes.now) (2 * length bytes.now) }
{
    // By an index, as `field::put_plain`: `chunks_exact_mut(2).zip(bytes)` was tried.
    for (i, &x) in bytes.iter().enumerate() {
        out[at + 2 * i] = crate::hex::glyph(x / 16);
        out[at + 2 * i + 1] = crate::hex::glyph(x % 16);
    }
}

// Puts bytes, and says the place behind them; none where they do not fit, and nothing changes.
pub fn put_text(out: &mut [u8], at: usize, text: &[u8]) -> Option<usize>
    ensures place { result ≡ place_after out.old at text.now }
    ensures buffer { out.new ≡ buffer_after out.old at text.now }
{
    if out.len().checked_sub(at)? < text.len() {
        return None;
    }
    let start = at;
    out[start..start + text.len()].copy_from_slice(text);
    Some(at + text.len())
}

// Puts a number in decimal, without zeros before it.
pub fn put_number(out: &mut [u8], at: usize, n: u64) -> Option<usize>
    ensures place { result ≡ place_after out.old at (numeral n) }
    ensures buffer { out.new ≡ buffer_after out.old at (numeral n) }
{
    let line = listing::decimal(n);
    let bytes = line.bytes;
    let length = line.length;
    put_text(out, at, &bytes[..length])
}

// Puts bytes in hex, two small digits for each.
pub fn put_hex(out: &mut [u8], at: usize, bytes: &[u8]) -> Option<usize>
    ensures place { result ≡ place_after out.old at (hex_text bytes.now) }
    ensures buffer { out.new ≡ buffer_after out.old at (hex_text bytes.now) }
{
    if out.len().checked_sub(at)? / 2 < bytes.len() {
        return None;
    }
    copy_hex(bytes, out, at);
    Some(at + 2 * bytes.len())
}
