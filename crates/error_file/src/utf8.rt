// Valid UTF-8 (RFC 3629, 4), by a walk over the bytes that knows which byte may come next.
ghost use Rattle.std.specs.Prelude.{◌≡◌, List, ◌∷◌, ℕ, Some};
ghost use Rattle.rules.specs.ErrorFile.{is_lead, more, least, most, utf8};
ghost use Rattle.error_file.specs.Walk.{rest};

// How many bytes the character still asks for, and the bounds of the first of these.
#[derive(Clone, Copy)]
struct Walk {
    asked: u8,
    low: u8,
    high: u8,
}

// Whether a character may begin with x.
fn is_lead(x: u8) -> bool
    ensures { result ≡ is_lead x }
{
    (x <= 0x7F) | ((0xC2 <= x) & (x <= 0xF4))
}

// How many bytes the lead byte x asks for.
#[tactic(auto, unfolding(rules::specs::ErrorFile::more))]
fn more_after(x: u8) -> u8
    ensures { result ≡ more x }
{
    if x <= 0x7F {
        return 0;
    }
    if x <= 0xDF {
        return 1;
    }
    if x <= 0xEF {
        return 2;
    }
    3
}

// The lower bound of the byte after the lead byte x: an overlong form lies below it. Beside the upper bound, since a table of both is no plainer.
#[tactic(auto, unfolding(rules::specs::ErrorFile::least))]
fn least_after(x: u8) -> u8
    ensures { result ≡ least x }
{
    if x == 0xE0 {
        return 0xA0;
    }
    if x == 0xF0 {
        return 0x90;
    }
    0x80
}

// The upper bound of the byte after the lead byte x: surrogates, and what is above U+10FFFF, lie above it.
#[tactic(auto, unfolding(rules::specs::ErrorFile::most))]
fn most_after(x: u8) -> u8
    ensures { result ≡ most x }
{
    if x == 0xED {
        return 0x9F;
    }
    if x == 0xF4 {
        return 0x8F;
    }
    0xBF
}

// The walk after the byte x; none where x may not come next, so that the bytes are no UTF-8.
#[tactic(auto, unfolding(rules::specs::ErrorFile::utf8_from), using(crate::proofs::Text::walked))]
fn step(walk: Walk, x: u8) -> Option<Walk>
    ensures { (xs : List ℕ) → rest (Some walk) (x ∷ xs) ≡ rest result xs }
{
    if walk.asked == 0 {
        return is_lead(x).then_some(Walk {
            asked: more_after(x),
            low: least_after(x),
            high: most_after(x),
        });
    }
    ((walk.low <= x) & (x <= walk.high)).then_some(Walk {
        asked: walk.asked - 1,
        low: 0x80,
        high: 0xBF,
    })
}

// Whether the bytes are valid UTF-8.
// `std::str::from_utf8` is no plainer: its contract speaks of encoded characters, and not of the RFC's bounds, which `utf8` states.
#[tactic(auto, unfolding(rules::specs::ErrorFile::utf8), using(crate::proofs::Text::at_end))]
pub fn is_utf8(s: &[u8]) -> bool
    ensures { result ≡ utf8 s.now }
{
    let mut walk = Walk {
        asked: 0,
        low: 0x80,
        high: 0xBF,
    };
    for x in s {
        let Some(next) = step(walk, *x) else {
            return false;
        };
        walk = next;
    }
    walk.asked == 0
}
