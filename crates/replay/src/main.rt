// Replays a list of calls: standard input is text, a call to a line, and one line goes out for each.
#![tactic(auto)]

mod answers;
mod input;
mod lines;
mod output;
mod progress;
mod shown;
mod stores;

use input::Reader;
use output::Output;
use progress::Progress;
use std::io::{self, Read};

// Each read is answered line by line, and what is answered goes out before the next read, so that a reader at a terminal sees it. A proved loop
// has to end, and nothing says that an input does: the reads are counted up to a number that no run reaches. After a read that failed what
// stands in the line's buffer may be a part of a line: it is not answered.
fn replay(
    rt: &impl Print,
    input: &mut impl Read,
    reader: &mut Reader,
    progress: &mut Progress,
    out: &mut Output,
) -> io::Result<()> {
    let mut chunk = stores::large_buffer();
    for _ in 0..u64::MAX {
        let count = input.read(&mut chunk)?;
        if count == 0 {
            break;
        }
        reader.feed(rt, &chunk[..count], progress, out);
    }
    reader.end(rt, progress, out);
    Ok(())
}

// The buffers: 65,536 bytes for a line and for answers, and the longest store.
fn main(rt: HostRuntime) {
    let mut line = stores::large_buffer();
    let mut store = stores::longest_store();
    let mut out = stores::large_buffer();
    let mut reader = Reader::new(&mut line);
    let mut progress = Progress::new(&mut store);
    let mut out = Output::new(&mut out);
    let replayed = replay(&rt, &mut rt.stdin(), &mut reader, &mut progress, &mut out);
    if replayed.is_err() {
        let _ = eprintln!(&rt; "replay: standard input could not be read to its end");
    }
}
