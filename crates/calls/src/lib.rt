// One call of the unit given as a value, and its reply: what a list of calls is made of.
#![tactic(auto)]

ghost use Rattle.std.specs.Prelude.{◌≡◌};
ghost use Rattle.calls.specs.Stepping.{stepped_of, store_of};

use rules::{Cause, Ceiling, Due, Kind};
use unit::{Done, Unit};

// A call, with the values that it is given besides unit and store; name and body of a file, boundary and bytes of a response are lent.
#[derive(Clone, Copy)]
pub enum Call {
    Tick(u64),
    ClockLost,
    File,
    Response,
    Failure(Kind, u64),
    Due,
    Ceiling(u64),
    Command,
    FreeBlocks,
}

// The answer to it.
#[derive(Clone, Copy)]
pub enum Reply {
    Done(Result<(), Cause>),
    Due(Result<Option<Due>, Cause>),
    Ceiling(Result<Option<Ceiling>, Cause>),
    Command(Result<u32, Cause>),
    Blocks(Result<u32, Cause>),
}

// A unit after a call, and the reply.
#[derive(Clone, Copy)]
pub struct Stepped {
    pub unit: Unit,
    pub reply: Reply,
}

// The unit after a call, and its answer as a reply.
fn replied<T, F: FnOnce(Result<T, Cause>) -> Reply>(done: Done<T>, reply: F) -> Stepped
    requires { F.pre reply done.answer }
    ensures { (result.unit ≡ done.unit) × F.post reply done.answer result.reply }
{
    Stepped {
        unit: done.unit,
        reply: reply(done.answer),
    }
}

// A call, whichever it is. `label` and `bytes` are looked at only by a file, as its name and body, and by a response, as its boundary and bytes.
pub fn step(unit: Unit, call: Call, label: &[u8], bytes: &[u8], store: &mut [u8]) -> Stepped
    ensures answer { result ≡ stepped_of unit call label.now bytes.now store.old }
    ensures kept { store.new ≡ store_of unit call label.now bytes.now store.old }
{
    match call {
        Call::Tick(t) => replied(unit.tick(t, store), Reply::Done),
        Call::ClockLost => replied(unit.clock_lost(), Reply::Done),
        Call::File => replied(taking::take_file(unit, label, bytes, store), Reply::Done),
        Call::Response => replied(
            taking::take_response(unit, label, bytes, store),
            Reply::Done,
        ),
        Call::Failure(kind, status) => replied(unit.failure(kind, status), Reply::Done),
        Call::Due => replied(unit.due(), Reply::Due),
        Call::Ceiling(slot) => replied(unit.ceiling(slot, store), Reply::Ceiling),
        Call::Command => replied(unit.command(), Reply::Command),
        Call::FreeBlocks => replied(unit.free_blocks(), Reply::Blocks),
    }
}
