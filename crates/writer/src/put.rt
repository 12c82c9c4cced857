// A number put into a buffer at a place.
ghost use Rattle.std.specs.Prelude.{◌≡◌, ◌+◌, ◌≤◌, length};
ghost use Rattle.rules.specs.Digits.{decimal};
ghost use Rattle.digits.specs.Placed.{placed};

// A number as `width` digits, written from the last one on. By index: of what is written through `iter_mut().rev()` no proof knows anything.
#[tactic(auto, using(crate::proofs::Numbers::digit_step, crate::proofs::Numbers::digits_end))]
pub(crate) fn put_number(out: &mut [u8], at: usize, width: usize, number: u32)
    requires { at + width ≤ length out.old }
    ensures { out.new ≡ placed out.old at (decimal width number) }
{
    let mut left = number;
    for i in (at..at + width).rev() {
        out[i] = (left % 10) as u8;
        left /= 10;
    }
}
