// The form of a body (01, Names and bodies): 'record count, digit, 203's n above 336, length, 301 result' (01, Causes of refusal, 9).
#![tactic(auto)]

ghost use Rattle.std.specs.Prelude.{◌≡◌};
ghost use Rattle.rules.specs.Body.{count_of, counted, record_shape};
ghost use Rattle.form.specs.Walk.{shaped, registered, Sized};

use rules::Format;

// Whether `body` begins with the format's record count.
pub fn count_holds(format: Format, body: &[u8]) -> bool
    ensures { result ≡ counted format body.now }
{
    if body.len() < layout::RECORDS {
        return false;
    }
    match digits::number(&body[0..layout::RECORDS]) {
        Some(n) => n == layout::record_count(format) as u64,
        None => false,
    }
}

// Whether a record of that many rates and bytes stands at the front of `s`.
fn record_stands(format: Format, rates: usize, size: usize, s: &[u8]) -> bool
    requires { Sized format s.now rates size }
    ensures { result ≡ record_shape format s.now }
{
    if s.len() < size {
        return false;
    }
    if (layout::most_rates(format) as usize) < rates {
        return false;
    }
    let tail = layout::RATES + rates;
    digits::all_at_most(&s[0..layout::RATE_COUNT], layout::HIGHEST_DIGIT)
        & digits::all_at_most(&s[layout::RATE_COUNT..layout::RATES], layout::HIGHEST_DIGIT)
        & digits::all_at_most(&s[tail..size], layout::HIGHEST_DIGIT)
}

// Whether `s` is the records of the format, and nothing after them. A walk of its own: over layout's records the compiler makes code of it that
// takes from 1.6 to 5 times as long.
pub fn records_stand(format: Format, s: &[u8]) -> bool
    ensures { result ≡ shaped format (count_of format) s.now }
{
    let tail = layout::tail_digits(format);
    let mut t = s;
    for _ in 0..layout::record_count(format) {
        let rates = layout::rate_count(t) as usize;
        let size = layout::RATES + rates + tail;
        if !record_stands(format, rates, size, t) {
            return false;
        }
        t = &t[size..];
    }
    t.len() == 0
}

// Whether `s` is what follows a registration's count.
#[tactic(auto, unfolding(crate::specs::Walk::registered))]
pub fn registration_stands(s: &[u8]) -> bool
    ensures { result ≡ registered s.now }
{
    if s.len() != layout::RESULT + 1 {
        return false;
    }
    digits::all_at_most(&s[0..layout::RESULT], layout::HIGHEST_DIGIT) & (s[layout::RESULT] <= 1)
}
