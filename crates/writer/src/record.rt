// The records of a body, put into a buffer at a place.
ghost use Rattle.std.specs.Prelude.{◌≡◌, ◌-◌, length};
ghost use Rattle.rules.specs.Body.{encode_record, encode_records};
ghost use Rattle.rules.specs.Writer.{month_start, month_record, update_record};
ghost use Rattle.digits.specs.Placed.{placed};
ghost use Rattle.plan.specs.Fields.{given, month_fields};
ghost use Rattle.writer.specs.Bodies.{head, months_of};
ghost use Rattle.writer.specs.Room.{HeadRoom, MonthRoom, UpdateRoom, MonthsRoom};

use crate::put::put_number;
use plan::Fields;
use std::ops::Range;

const FIRST_YEAR: u32 = 2000;

const MONTHS_OF_YEAR: u32 = 12;

const SLOTS_OF_DAY: usize = rules::SLOTS_OF_DAY as usize;

// A start is YYYYMMDDhhmm: where its month and its day stand.
const MONTH_PLACE: usize = 4;

const DAY_PLACE: usize = 6;

// The first slot of a month, as a start's digits.
#[tactic(auto, using(crate::proofs::Records::start_put))]
fn month_start(month: u16) -> [u8; 12]
    ensures { result ≡ month_start month }
{
    let number = month as u32;
    let mut start = [0u8; layout::START_DIGITS];
    put_number(&mut start, 0, 4, FIRST_YEAR + number / MONTHS_OF_YEAR);
    put_number(&mut start, MONTH_PLACE, 2, number % MONTHS_OF_YEAR + 1);
    put_number(&mut start, DAY_PLACE, 2, 1);
    start
}

// A record without its rates: a month's, and an update's with its flag and next access.
pub(crate) const MONTH_LENGTH: usize = layout::RATES + layout::CHECKSUM_DIGITS;

pub(crate) const UPDATE_LENGTH: usize = MONTH_LENGTH + layout::FLAG_DIGITS + layout::NEXT_DIGITS;

// A record up to and with its rates.
#[tactic(auto, using(crate::proofs::Records::head_put))]
fn put_head(out: &mut [u8], at: usize, fields: Fields)
    requires { HeadRoom (length out.old) at fields.schedule.now fields.plant.now fields.start.now fields.rates.now }
    ensures { out.new ≡ placed out.old at (head fields.entry.schedule.now fields.entry.plant.now fields.entry.start.now fields.entry.rates.now) }
{
    digits::put(out, at, fields.schedule);
    digits::put(out, at + layout::PLANT, fields.plant);
    digits::put(out, at + layout::START, fields.start);
    put_number(
        out,
        at + layout::RATE_COUNT,
        layout::COUNT_DIGITS,
        fields.rates.len() as u32,
    );
    digits::put(out, at + layout::RATES, fields.rates);
}

// The record of a month, whose rates are all those given; the start given is not looked at.
#[tactic(auto, using(crate::proofs::Records::month_put))]
fn put_month(out: &mut [u8], at: usize, fields: Fields, month: u16)
    requires { MonthRoom (length out.old) at fields.schedule.now fields.plant.now fields.rates.now }
    ensures { out.new ≡ placed out.old at (encode_record (month_record (month_fields fields.entry.plant.now fields.entry.schedule.now) month fields.entry.rates.now)) }
{
    let digits = month_start(month);
    let start = &digits;
    let sum = layout::checksum(start, fields.rates);
    put_head(out, at, Fields { start, ..fields });
    let at_sum = at + layout::RATES + fields.rates.len();
    put_number(out, at_sum, layout::CHECKSUM_DIGITS, sum);
}

// The records of these months, whose rates stand end to end.
pub(crate) fn put_months(out: &mut [u8], at: usize, fields: Fields, months: Range<u16>)
    requires { MonthsRoom (length out.old) at (given fields) months.start months.end }
    ensures { out.new ≡ placed out.old at (encode_records (months_of (given fields.entry) (months.end - months.start) months.start)) }
{
    let mut from = 0;
    let mut place = at;
    for month in months.start..months.end {
        let slots = SLOTS_OF_DAY * (calendar::days_of_month(month) as usize);
        let to = from + slots;
        let rates = &fields.rates[from..to];
        put_month(out, place, Fields { rates, ..fields }, month);
        place += MONTH_LENGTH + slots;
        from = to;
    }
}

// The record of an update.
#[tactic(auto, using(crate::proofs::Records::update_put))]
pub(crate) fn put_update(out: &mut [u8], at: usize, fields: Fields)
    requires { UpdateRoom (length out.old) at (given fields) }
    ensures { out.new ≡ placed out.old at (encode_record (update_record (given fields.entry))) }
{
    let sum = layout::checksum(fields.start, fields.rates);
    put_head(out, at, fields);
    let at_flag = at + layout::RATES + fields.rates.len();
    out[at_flag] = fields.flag as u8;
    let at_sum = at_flag + layout::FLAG_DIGITS;
    put_number(out, at_sum, layout::CHECKSUM_DIGITS, sum);
    digits::put(out, at_sum + layout::CHECKSUM_DIGITS, fields.next);
}
