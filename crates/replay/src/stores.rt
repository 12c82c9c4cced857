// The buffers, and the lent store: its length, its bytes, and one of them spoilt.
use crate::output::Output;
use crate::progress::{NoCall, Progress};

// 'a store of LENGTH bytes, at most 32768'.
const LONGEST_STORE: usize = 32768;

// Room for a line, and for answers.
const ROOM: usize = 65536;

pub(crate) fn large_buffer() -> [u8; ROOM] {
    [0u8; ROOM]
}

// Room for the longest store.
pub(crate) fn longest_store() -> [u8; LONGEST_STORE] {
    [0u8; LONGEST_STORE]
}

impl Progress<'_> {
    // 'lends a store of LENGTH bytes, each BYTE'.
    pub(crate) fn lend(&mut self, length: usize, byte: u8, out: &mut Output) {
        self.store.fill(byte);
        self.lent = length;
        out.line(b"accepted");
    }

    // 'writes one byte of the lent store'; 'INDEX not below the length: `unknown`'.
    pub(crate) fn spoil(&mut self, index: u64, value: u8, out: &mut Output) -> Result<(), NoCall> {
        let lent = self.lent.min(self.store.len());
        if lent as u64 <= index {
            return Err(NoCall::Unknown);
        }
        self.store[index as usize] = value;
        out.line(b"accepted");
        Ok(())
    }
}
