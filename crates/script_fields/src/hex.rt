// Hex digits: two to a byte, the high one first, in either case.
ghost use Rattle.std.specs.Prelude.{◌≡◌, true, ◌/◌, ◌<◌, ◌≤◌, length, IfSome};
ghost use Rattle.std.proofs.Math.Seq.{paste};
ghost use Rattle.script_fields.specs.Hex.{nibble, value, glyph, all_hex, hex_bytes};

// What a hex digit stands for.
#[tactic(auto, unfolding(crate::specs::Hex::nibble))]
fn nibble(x: u8) -> Option<u8>
    ensures exact { result ≡ nibble x }
    ensures bound { IfSome result (λ d. d < 16) }
{
    match x {
        b'0'..=b'9' => Some(x - b'0'),
        b'A'..=b'F' => Some(x - b'A' + 10),
        b'a'..=b'f' => Some(x - b'a' + 10),
        _ => None,
    }
}

// The same number, and 0 for a byte that is no digit. By tests and no match, which a loop makes of many digits at once: with `nibble` and an
// unwrapping a digit takes three times the instructions.
#[tactic(auto, unfolding(crate::specs::Hex::nibble))]
fn value(x: u8) -> u8
    ensures exact { result ≡ value x }
    ensures bound { result < 16 }
{
    if (b'0' <= x) & (x <= b'9') {
        return x - b'0';
    }
    if (b'A' <= x) & (x <= b'F') {
        return x - b'A' + 10;
    }
    if (b'a' <= x) & (x <= b'f') {
        return x - b'a' + 10;
    }
    0
}

// A number below 16 as a digit.
pub(crate) fn glyph(d: u8) -> u8
    requires { d < 16 }
    ensures { result ≡ glyph d }
{
    if d < 10 { b'0' + d } else { b'a' + (d - 10) }
}

// Whether these are hex digits, and two for every byte.
pub(crate) fn is_hex(s: &[u8]) -> bool
    ensures { result ≡ all_hex s.now }
{
    // A flag, since the early exit of `all` keeps the loop from testing many bytes at once.
    let mut all = true;
    for &x in s {
        all = all & nibble(x).is_some();
    }
    all & (s.len() % 2 == 0)
}

// Puts the bytes of these digits, which are digits by what is required, into the buffer's first bytes.
pub(crate) fn put_bytes(s: &[u8], out: &mut [u8])
    requires { (all_hex s.now ≡ true) × (length s.now / 2 ≤ length out.old) }
    ensures { out.new ≡ paste out.old 0 (hex_bytes s.now) (length s.now / 2) }
{
    // By an index, as `field::put_plain`: `iter_mut().zip(s.chunks_exact(2))` was tried.
    for i in 0..s.len() / 2 {
        out[i] = value(s[2 * i]) * 16 + value(s[2 * i + 1]);
    }
}
