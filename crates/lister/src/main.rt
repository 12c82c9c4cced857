// The lister (01, Beside the unit), a program: prints the line of what standard input holds.
#![tactic(auto)]

ghost use Rattle.std.specs.Prelude.{take, ◌≡◌, ◌≤◌, length, IfOk};
ghost use Rattle.listing.specs.Bound.{enough};

use std::io::{self, Read};

// 'A name has 55 ASCII bytes'.
const NAME_LENGTH: usize = 55;

// As much of the input as is read: a name, byte 0A, the longest body, and a byte that is too much. More would not change the line.
const ENOUGH: usize = NAME_LENGTH + 1 + layout::LONGEST_BODY + 1;

// Room for that much.
fn space() -> [u8; ENOUGH] {
    [0u8; ENOUGH]
}

// As many bytes as decide the line, whatever follows them.
fn most() -> usize
    ensures { result ≡ enough }
{
    ENOUGH
}

// Reads standard input to its end, or as many bytes of it; a read that fails is not the end.
fn read_input<R: Read>(input: &mut R, room: &mut [u8], most: usize) -> io::Result<usize>
    requires { most ≤ length room.old }
    ensures bound { IfOk result (λ count. count ≤ length room.new) }
    ensures taken { IfOk result (λ count. count ≡ length (take count room.new)) }
{
    let mut count = 0;
    // A while, since a turn passes as many bytes as were read: a `for` is no plainer, and counts turns beside the bytes.
    while count < most {
        match input.read(&mut room[count..most])? {
            0 => return Ok(count),
            more => count += more,
        }
    }
    Ok(count)
}

// A write that fails changes nothing of how the program ends.
#[tactic(auto, using(listing::proofs::Puts::line_there))]
fn main(rt: HostRuntime) {
    let mut room = space();
    let Ok(count) = read_input(&mut rt.stdin(), &mut room, most()) else {
        let _ = eprintln!(rt; "lister: standard input could not be read");
        return;
    };
    let line = listing::line_of(&room[..count]);
    let bytes = line.bytes;
    let _ = rt.write_all(&bytes[..line.length]);
}
