// What a unit has, for `state` and `block`.
use crate::output::Output;
use polling::{NO_FLAG, Requests};
use pool::Pool;
use rules::MONTH_COUNT;
use unit::Unit;

fn put_clock(out: &mut Output, clock: Option<u32>) {
    match clock {
        Some(t) => out.value(b"clock ", t as u64),
        None => out.text(b"clock unset"),
    }
}

fn put_flag(out: &mut Output, word: &[u8], flag: u8) {
    out.text(word);
    if flag == NO_FLAG {
        out.text(b"none");
    } else {
        out.number(flag as u64);
    }
}

// The flags, failures and times of the requests, by 01's letters.
fn put_requests(out: &mut Output, requests: Requests) {
    put_flag(out, b" w ", requests.wanted_flag);
    put_flag(out, b" h ", requests.held_flag);
    out.value(b" k ", requests.failures as u64);
    out.value(b" f ", requests.fixed_at);
    out.value(b" u ", requests.update_at);
}

// 'held MONTH:BLOCK,..', months rising, and - where there is none.
fn put_held(out: &mut Output, pool: Pool) {
    out.text(b" held ");
    let mut any = false;
    for month in 0..MONTH_COUNT {
        if let Some(block) = pool.find(month) {
            if any {
                out.text(b",");
            }
            any = true;
            out.number(month as u64);
            out.value(b":", block as u64);
        }
    }
    if !any {
        out.text(b"-");
    }
}

// The line of `state`.
pub(crate) fn put_state(out: &mut Output, unit: Unit) {
    put_clock(out, unit.clock);
    out.value(b" floor ", unit.floor as u64);
    put_requests(out, unit.requests);
    out.value(b" command ", unit.command as u64);
    put_held(out, unit.pool);
    out.text(b"\n");
}

// A month's block, where the store has the length and the month is held.
fn block_of(pool: Pool, month: u64, store: &[u8]) -> Option<&[u8]> {
    if store.len() != Unit::STORE_LENGTH {
        return None;
    }
    if MONTH_COUNT as u64 <= month {
        return None;
    }
    let block = pool.find(month as u16)?;
    let start = block * Unit::BLOCK_LENGTH;
    let end = start + Unit::BLOCK_LENGTH;
    Some(&store[start..end])
}

// The line of `block`: 'the 1488 bytes of that month's block in hex | none', and 'none where the store lacks the length'.
pub(crate) fn put_block(out: &mut Output, pool: Pool, month: u64, store: &[u8]) {
    match block_of(pool, month, store) {
        Some(block) => {
            out.hex(block);
            out.text(b"\n");
        }
        None => out.line(b"none"),
    }
}
