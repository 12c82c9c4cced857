// The answers of calls as lines.
use crate::output::Output;
use calls::Reply;
use rules::{Cause, Ceiling, Due};
use unit::Unit;

// '84 bytes' (01, Beside the unit).
const REQUEST_LENGTH: usize = 84;

fn put_refusal(out: &mut Output, cause: Cause) {
    out.value_line(b"refused ", u32::from(cause) as u64);
}

fn put_ceiling(out: &mut Output, ceiling: Ceiling) {
    out.value(b"rate ", ceiling.rate as u64);
    out.value_line(b" ", ceiling.percent as u64);
}

pub(crate) fn put_reply(out: &mut Output, reply: Reply) {
    match reply {
        Reply::Done(Ok(())) => out.line(b"accepted"),
        Reply::Due(Ok(Some(Due::Update))) => out.line(b"update"),
        Reply::Due(Ok(Some(Due::Fixed(flag)))) => out.value_line(b"fixed ", flag as u64),
        Reply::Due(Ok(None)) => out.line(b"nothing"),
        Reply::Ceiling(Ok(Some(ceiling))) => put_ceiling(out, ceiling),
        Reply::Ceiling(Ok(None)) => out.line(b"none"),
        Reply::Command(Ok(n)) | Reply::Blocks(Ok(n)) => out.value_line(b"", n as u64),
        Reply::Done(Err(cause))
        | Reply::Due(Err(cause))
        | Reply::Ceiling(Err(cause))
        | Reply::Command(Err(cause))
        | Reply::Blocks(Err(cause)) => put_refusal(out, cause),
    }
}

// 'the 84 bytes as text'.
pub(crate) fn put_request(out: &mut Output, unit: Unit, segment: &[u8]) {
    let mut bytes = [0u8; REQUEST_LENGTH];
    match unit.request(segment, &mut bytes).answer {
        Ok(_) => out.line(&bytes),
        Err(cause) => put_refusal(out, cause),
    }
}
