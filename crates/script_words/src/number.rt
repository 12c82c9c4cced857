// A number: 'Numbers are decimal and may be any u64'.
ghost use Rattle.std.specs.Prelude.{◌≡◌};
ghost use Rattle.script_words.specs.Number.{decimal_step, number_of};

const HIGHEST_DIGIT: u8 = b'9';

// The number with one more digit behind it.
#[tactic(auto, unfolding(crate::specs::Number::decimal_step))]
fn more(value: u64, digit: u8) -> Option<u64>
    ensures { result ≡ decimal_step value digit }
{
    let d = digit.checked_sub(b'0')?;
    if HIGHEST_DIGIT < digit {
        return None;
    }
    value.checked_mul(10)?.checked_add(d as u64)
}

// What decimal digits stand for; not a number where there are none, another byte is among them, or it is above u64.
pub fn number_of(s: &[u8]) -> Option<u64>
    ensures { result ≡ number_of s.now }
{
    if s.len() == 0 {
        return None;
    }
    let mut value: u64 = 0;
    for &digit in s {
        value = more(value, digit)?;
    }
    Some(value)
}
