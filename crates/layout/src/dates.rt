// The dates of a schedule's records: the month of a segment, whole months, and the dates of a 203.
ghost use Rattle.std.specs.Prelude.{◌≡◌, ◌≤◌};
ghost use Rattle.rules.specs.Digits.{decimal};
ghost use Rattle.rules.specs.Name.{segment_month};
ghost use Rattle.layout.specs.Dates.{month_holds, update_holds};

use rules::SLOTS_OF_DAY;

const MONTHS_OF_YEAR: u16 = 12;

// 'last slot before T' (01, Names and bodies).
const SLOT_COUNT: u64 = rules::SLOT_COUNT as u64;

// '202 with YYMM (20YY, MM 01-12)' (01, Names and bodies): the month of a segment.
pub fn segment_month(segment: u16) -> u16
    ensures exact { result ≡ segment_month (decimal 4 segment) }
    ensures bound { result ≤ 1286 }
{
    MONTHS_OF_YEAR * (segment / 100 % 100) + (segment % 100).saturating_sub(1)
}

// Whether so many rates from the start on are the whole of the month: 'the start is day 01, 00:00, and n is 48 × days of the month'
// (01, Names and bodies).
pub fn is_whole_month(month: u16, start: &[u8], rates: u32) -> bool
    ensures { result ≡ month_holds month start.now rates }
{
    calendar::month_begun(start).is_some_and(|begun| {
        let slots = SLOTS_OF_DAY * calendar::days_of_month(begun) as u32;
        (begun == month) & (rates == slots)
    })
}

// '203: start minute 00 or 30, last slot before T' (01, Names and bodies), and a next access that exists.
pub fn is_update(start: &[u8], rates: u32, next: &[u8]) -> bool
    ensures { result ≡ update_holds start.now rates next.now }
{
    calendar::start_slot(start).is_some_and(|slot| slot as u64 + rates as u64 <= SLOT_COUNT)
        && calendar::read_moment(next).is_some()
}
