// Takes apart the body of 01's example 10 and a 201 of example 3's months, and writes each again: whether fields and bytes are as they were.
#![tactic(auto)]

use plan::Fields;
use records::Field;
use rules::{Cause, Format};

// The rates of 13 months of 31 days.
const MOST_RATES: usize = 13 * rules::BLOCK_LENGTH;

// 'X' of 01's bench examples.
const PLANT: [u8; 26] =
    *b"\x01\x02\x03\x04\x05\x06\x07\x08\x09\x00\x01\x02\x03\x04\x05\x06\x07\x08\x09\x00\x01\x02\x03\x04\x05\x05";

const SCHEDULE: [u8; 10] = *b"\x02\x06\x00\x03\x02\x07\x00\x00\x00\x01";

// A line of what is as it was, or is not; a write that fails changes nothing of how the program ends. In two writes: an output that takes no more
// has at least what it is about.
fn told(rt: &impl Print, what: &str, same: bool) {
    let not = if same { "" } else { "not " };
    let _ = print!(rt; "{what}");
    let _ = println!(rt; ": {not}as it was");
}

// Whether `out` begins with the bytes of `body`, and they are as many as were written.
fn begins(written: Result<usize, Cause>, out: &[u8], body: &[u8]) -> bool {
    written.is_ok_and(|n| n <= out.len() && digits::same(&out[..n], body))
}

// Whether a body is itself when it is written again from its parts.
fn is_itself(format: Format, flag: u32, body: &[u8]) -> bool {
    let mut rates = [0u8; MOST_RATES];
    let mut out = [0u8; 20480];
    let Ok(n) = records::copy_rates(format, body, &mut rates) else {
        return false;
    };
    if MOST_RATES < n {
        return false;
    }
    let fields = Fields {
        format: u32::from(format),
        plant: records::field_part(Field::Plant, format, body, 0),
        schedule: records::field_part(Field::Schedule, format, body, 0),
        start: records::field_part(Field::Start, format, body, 0),
        next: records::field_part(Field::Next, format, body, 0),
        rates: &rates[0..n],
        flag,
    };
    let written = writer::write_body(fields, &mut out);
    begins(written, &out, body)
}

// Whether a field of record `index` has these bytes. A struct would be no plainer: it would be built for this call alone.
fn compare(
    rt: &impl Print,
    what: &str,
    field: Field,
    format: Format,
    body: &[u8],
    index: usize,
    bytes: &[u8],
) {
    told(
        rt,
        what,
        digits::same(records::field_part(field, format, body, index), bytes),
    );
}

// Example 10: count 000001, schedule ID 2603270001, X, 202603270930, 00003, rates 100, 40, 28, flag 2, checksum 18, 20260327113000.
fn update(rt: &impl Print) {
    let body =
        b"\x00\x00\x00\x00\x00\x01\x02\x06\x00\x03\x02\x07\x00\x00\x00\x01\x01\x02\x03\x04\x05\x06\x07\x08\x09\x00\x01\x02\x03\x04\x05\x06\x07\x08\x09\x00\x01\x02\x03\x04\x05\x05\x02\x00\x02\x06\x00\x03\x02\x07\x00\x09\x03\x00\x00\x00\x00\x00\x03\x64\x28\x1C\x02\x01\x08\x02\x00\x02\x06\x00\x03\x02\x07\x01\x01\x03\x00\x00\x00";
    let start = b"\x02\x00\x02\x06\x00\x03\x02\x07\x00\x09\x03\x00";
    let next = b"\x02\x00\x02\x06\x00\x03\x02\x07\x01\x01\x03\x00\x00\x00";
    let format = Format::F203;
    compare(
        rt,
        "schedule ID",
        Field::Schedule,
        format,
        body,
        0,
        &SCHEDULE,
    );
    compare(rt, "plant ID", Field::Plant, format, body, 0, &PLANT);
    compare(rt, "start", Field::Start, format, body, 0, start);
    compare(rt, "rates", Field::Rates, format, body, 0, b"\x64\x28\x1C");
    compare(rt, "flag", Field::Flag, format, body, 0, b"\x02");
    compare(
        rt,
        "checksum",
        Field::Checksum,
        format,
        body,
        0,
        b"\x01\x08",
    );
    compare(rt, "next access", Field::Next, format, body, 0, next);
    told(rt, "body of 203", is_itself(format, 2, body));
    told(
        rt,
        "body of 203 with another flag",
        is_itself(format, 3, body),
    );
}

// Example 3: April 2026 to April 2027, 395 days, 19,681 bytes.
fn year(rt: &impl Print) {
    let start = b"\x02\x00\x02\x06\x00\x04\x00\x01\x00\x00\x00\x00";
    let last = b"\x02\x00\x02\x07\x00\x04\x00\x01\x00\x00\x00\x00";
    let rates = [55u8; 18960];
    let mut body = [0u8; 19681];
    let fields = Fields {
        format: u32::from(Format::F201),
        plant: &PLANT,
        schedule: &SCHEDULE,
        start,
        next: b"",
        rates: &rates,
        flag: 0,
    };
    let written = writer::write_body(fields, &mut body);
    told(rt, "length of 201", matches!(written, Ok(19681)));
    let format = Format::F201;
    compare(rt, "last start", Field::Start, format, &body, 12, last);
    compare(
        rt,
        "last schedule ID",
        Field::Schedule,
        format,
        &body,
        12,
        &SCHEDULE,
    );
    compare(
        rt,
        "a fourteenth record",
        Field::Start,
        format,
        &body,
        13,
        last,
    );
    told(rt, "body of 201", is_itself(format, 0, &body));
}

fn main(rt: HostRuntime) {
    update(&rt);
    year(&rt);
}
