// The writer (01, Beside the unit): a 201, 202 or 203 body from its fields, into a lent buffer.
#![tactic(auto)]

ghost use Rattle.std.specs.Prelude.{◌≡◌, ◌-◌, length};
ghost use Rattle.rules.specs.Writer.{written_of, buffer_after, write_body, fitting};
ghost use Rattle.plan.specs.Fields.{given};
ghost use Rattle.writer.specs.Bodies.{months_body, update_body};
ghost use Rattle.plan.specs.Given.{MonthsGiven, UpdateGiven};

use plan::{Fields, Plan};
use rules::Cause;
use std::ops::Range;

mod put;
mod record;

// The body of these months, or cause 15.
fn write_months(fields: Fields, months: Range<u16>, out: &mut [u8]) -> Result<usize, Cause>
    requires { MonthsGiven (given fields) months.start months.end }
    ensures answer { result ≡ written_of (fitting (length out.old) (months_body (given fields.entry) (months.end - months.start) months.start)) }
    ensures buffer { out.new ≡ buffer_after (fitting (length out.old) (months_body (given fields.entry) (months.end - months.start) months.start)) out.old }
{
    let count = months.len();
    let length = layout::RECORDS + (record::MONTH_LENGTH * count + fields.rates.len());
    if out.len() < length {
        return Err(Cause::Buffer);
    }
    put::put_number(out, 0, layout::RECORDS, count as u32);
    record::put_months(out, layout::RECORDS, fields, months);
    Ok(length)
}

// The body of an update, or cause 15.
#[tactic(auto, using(crate::proofs::Outputs::update_long, crate::proofs::Outputs::update_put, digits::proofs::Placing::placed_first))]
fn write_update(fields: Fields, out: &mut [u8]) -> Result<usize, Cause>
    requires { UpdateGiven (given fields) }
    ensures answer { result ≡ written_of (fitting (length out.old) (update_body (given fields.entry))) }
    ensures buffer { out.new ≡ buffer_after (fitting (length out.old) (update_body (given fields.entry))) out.old }
{
    let length = layout::RECORDS + (record::UPDATE_LENGTH + fields.rates.len());
    if out.len() < length {
        return Err(Cause::Buffer);
    }
    put::put_number(out, 0, layout::RECORDS, 1);
    record::put_update(out, layout::RECORDS, fields);
    Ok(length)
}

// The body of these fields in the buffer's first bytes, and its length; or a cause, with the buffer as it was.
// 'Bytes past its end stay'; on refusal all of them do. For 201 and 202 the flag and the next access are not looked at.
#[tactic(auto, using(plan::proofs::Plans::output_is, plan::proofs::Plans::months_given, plan::proofs::Plans::update_given, crate::proofs::Months::same_months))]
pub fn write_body(fields: Fields, out: &mut [u8]) -> Result<usize, Cause>
    ensures answer { result ≡ written_of (write_body (given fields.entry) (length out.old)) }
    ensures buffer { out.new ≡ buffer_after (write_body (given fields.entry) (length out.old)) out.old }
{
    match plan::decide(fields)? {
        Plan::Months { first, end } => write_months(fields, first..end, out),
        Plan::Update => write_update(fields, out),
    }
}
