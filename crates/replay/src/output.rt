// The answers' text: bytes, numbers and hex digits put one behind another into a buffer, and written out.

// As much of the output as an answer can take: a block's 1,488 bytes in hex and 0A are the longest, 2,977 bytes.
const LONGEST_ANSWER: usize = 4096;

// The buffer, and the place in it behind what was put. What does not fit is left out whole.
#[derive(Drop)]
pub(crate) struct Output<'a> {
    bytes: &'a mut [u8],
    at: usize,
}

impl<'a> Output<'a> {
    pub(crate) fn new(bytes: &'a mut [u8]) -> Output<'a> {
        Output { bytes, at: 0 }
    }

    pub(crate) fn text(&mut self, text: &[u8]) {
        self.at = script_fields::put_text(self.bytes, self.at, text).unwrap_or(self.at);
    }

    pub(crate) fn number(&mut self, n: u64) {
        self.at = script_fields::put_number(self.bytes, self.at, n).unwrap_or(self.at);
    }

    pub(crate) fn hex(&mut self, bytes: &[u8]) {
        self.at = script_fields::put_hex(self.bytes, self.at, bytes).unwrap_or(self.at);
    }

    // A word and a number.
    pub(crate) fn value(&mut self, word: &[u8], n: u64) {
        self.text(word);
        self.number(n);
    }

    // Text and 0A.
    pub(crate) fn line(&mut self, text: &[u8]) {
        self.text(text);
        self.text(b"\n");
    }

    // A word, a number and 0A.
    pub(crate) fn value_line(&mut self, word: &[u8], n: u64) {
        self.value(word, n);
        self.text(b"\n");
    }

    // Writes out what was put. A write that fails changes nothing of how the program goes on.
    pub(crate) fn flush(&mut self, rt: &impl Print) {
        let end = self.at.min(self.bytes.len());
        let _ = rt.write_all(&self.bytes[..end]);
        self.at = 0;
    }

    // Room for an answer: what was put is written out where room gets short.
    pub(crate) fn make_room(&mut self, rt: &impl Print) {
        if self.bytes.len().saturating_sub(self.at) < LONGEST_ANSWER {
            self.flush(rt);
        }
    }
}
