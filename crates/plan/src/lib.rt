// What the writer decides before the first byte (01, Beside the unit): the cause of a refusal, or the records that the body has.
#![tactic(auto)]

ghost use Rattle.std.specs.Prelude.{◌≡◌, ◌≤◌};
ghost use Rattle.rules.specs.Digits.{digits};
ghost use Rattle.plan.specs.Fields.{given};
ghost use Rattle.plan.specs.Plan.{months_plan, update_plan, plan_of};

use layout::{SCHEDULE_DIGITS, START_DIGITS, record_count};
use rules::{Cause, Format, HIGHEST_RATE, MONTH_COUNT};

// Cause 6: 'writer's flag above 9'.
const HIGHEST_FLAG: u32 = 9;

// What a body is written from (01, Beside the unit): as the caller gives it, not looked at yet. Its format is a number, any that a caller has: an
// Option of a format would ask of callers that they look at it first.
#[derive(Clone, Copy)]
pub struct Fields<'a> {
    pub format: u32,
    pub plant: &'a [u8],
    pub schedule: &'a [u8],
    pub start: &'a [u8],
    pub next: &'a [u8],
    pub rates: &'a [u8],
    pub flag: u32,
}

// The records of a body: those of the months from `first` to before `end`, or an update's. No Option: both cases are some.
#[derive(Clone, Copy, Debug, PartialEq, Eq)]
pub enum Plan {
    Months { first: u16, end: u16 },
    Update,
}

// Whether `s` is `count` digits.
fn is_digits(s: &[u8], count: usize) -> bool
    ensures { result ≡ digits count s.now }
{
    (s.len() == count) & digits::all_at_most(s, layout::HIGHEST_DIGIT)
}

// A 201's or 202's plan, of `count` months.
#[tactic(auto, unfolding(crate::specs::Plan::months_plan), using(crate::proofs::Plans::dates))]
fn plan_months(count: u16, fields: Fields) -> Result<Plan, Cause>
    requires { count ≤ 13 }
    ensures { result ≡ months_plan count fields.entry.schedule.now fields.entry.start.now fields.entry.rates.now }
{
    if !(is_digits(fields.schedule, SCHEDULE_DIGITS) & is_digits(fields.start, START_DIGITS)) {
        return Err(Cause::Form);
    }
    let Some(first) = calendar::month_begun(fields.start) else {
        return Err(Cause::Date);
    };
    let end = first + count;
    let slots = calendar::first_slot(end) - calendar::first_slot(first);
    if !((end <= MONTH_COUNT) & (fields.rates.len() == slots as usize)) {
        return Err(Cause::Date);
    }
    if !digits::all_at_most(fields.rates, HIGHEST_RATE) {
        return Err(Cause::Rate);
    }
    Ok(Plan::Months { first, end })
}

// A 203's plan.
#[tactic(auto, unfolding(crate::specs::Plan::update_plan), using(crate::proofs::Plans::dated_as))]
fn plan_update(fields: Fields) -> Result<Plan, Cause>
    ensures { result ≡ update_plan fields.entry.schedule.now fields.entry.start.now fields.entry.next.now fields.entry.rates.now }
{
    let most = layout::most_rates(Format::F203) as usize;
    let few = is_digits(fields.next, layout::NEXT_DIGITS) & (fields.rates.len() <= most);
    if !(is_digits(fields.schedule, SCHEDULE_DIGITS)
        & is_digits(fields.start, START_DIGITS)
        & few)
    {
        return Err(Cause::Form);
    }
    if !layout::is_update(fields.start, fields.rates.len() as u32, fields.next) {
        return Err(Cause::Date);
    }
    if !digits::all_at_most(fields.rates, HIGHEST_RATE) {
        return Err(Cause::Rate);
    }
    Ok(Plan::Update)
}

// The plan of a body's fields: causes 1, 6, 7, 9, 10 and 11, in that order.
// 'For 201 and 202 flag and next access are not looked at' (01, Beside the unit).
#[tactic(auto, unfolding(crate::specs::Plan::plan_of, rules::specs::Name::format_of))]
pub fn decide(fields: Fields) -> Result<Plan, Cause>
    ensures { result ≡ plan_of (given fields.entry) }
{
    if !plant::is_plant_id(fields.plant) {
        return Err(Cause::PlantId);
    }
    match Format::try_from(fields.format) {
        Ok(known @ (Format::F201 | Format::F202)) => plan_months(
            record_count(known) as u16,
            fields,
        ),
        _ if HIGHEST_FLAG < fields.flag => Err(Cause::Range),
        Ok(Format::F203) => plan_update(fields),
        Ok(Format::F301) | Err(_) => Err(Cause::Name),
    }
}
