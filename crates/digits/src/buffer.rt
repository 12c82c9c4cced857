// Bytes put into a lent buffer.
ghost use Rattle.std.specs.Prelude.{◌≡◌, length};
ghost use Rattle.digits.specs.Placed.{placed};

// Copies a whole slice. By index: `copy_from_slice` calls `memmove`, which whoever links the library would have to bring, and of bytes written
// through an adapter of `iter_mut` a proof knows nothing.
fn copy(to: &mut [u8], from: &[u8])
    requires { length to.old ≡ length from.now }
    ensures { to.new ≡ from.now }
{
    for (i, &x) in from.iter().enumerate() {
        to[i] = x;
    }
}

// The bytes of `s` in the buffer from `at` on; those that would stand past its end are left out.
#[tactic(auto, using(crate::proofs::Placing::placed_past, crate::proofs::Placing::placed_part))]
pub fn put(out: &mut [u8], at: usize, s: &[u8])
    ensures { out.new ≡ placed out.old at s.now }
{
    let length = out.len();
    if length <= at {
        return;
    }
    let count = (length - at).min(s.len());
    let end = at + count;
    copy(&mut out[at..end], &s[..count]);
}
