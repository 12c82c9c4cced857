// The input's lines: 'lines end in 0A (the last may lack it)'. A line is gathered from as many reads as it takes.
use crate::output::Output;
use crate::progress::Progress;

const NEW_LINE: u8 = 10;

// The line's buffer, and how much of the present line stands in it: None where that is longer than the buffer.
#[derive(Drop)]
pub(crate) struct Reader<'a> {
    line: &'a mut [u8],
    length: Option<usize>,
}

impl<'a> Reader<'a> {
    pub(crate) fn new(line: &'a mut [u8]) -> Reader<'a> {
        Reader {
            line,
            length: Some(0),
        }
    }

    // A part of a line behind what stands in the buffer already. 'A line up to 65,536 bytes without its 0A is read', as many as the buffer has;
    // what does not fit makes the line too long.
    fn gather(&mut self, part: &[u8]) {
        if let Some(length) = self.length {
            self.length = script_fields::put_text(self.line, length, part);
        }
    }

    // The line's answer; the next line begins.
    fn answer(&mut self, rt: &impl Print, progress: &mut Progress, out: &mut Output) {
        out.make_room(rt);
        match self.length {
            Some(length) => {
                let end = length.min(self.line.len());
                progress.answer(&self.line[..end], out);
            }
            None => out.line(b"too long"),
        }
        self.length = Some(0);
    }

    // A part of the input that ends behind its only 0A, or has none.
    fn take_part(
        &mut self,
        rt: &impl Print,
        part: &[u8],
        progress: &mut Progress,
        out: &mut Output,
    ) {
        match part.strip_suffix(&[NEW_LINE]) {
            Some(text) => {
                self.gather(text);
                self.answer(rt, progress, out);
            }
            None => self.gather(part),
        }
    }

    // A part of the input: each of its lines answered, and the start of the next line gathered.
    pub(crate) fn feed(
        &mut self,
        rt: &impl Print,
        part: &[u8],
        progress: &mut Progress,
        out: &mut Output,
    ) {
        for piece in part.split_inclusive(|&x| x == NEW_LINE) {
            self.take_part(rt, piece, progress, out);
        }
        out.flush(rt);
    }

    // At the input's end: the last line, where it lacks its 0A.
    pub(crate) fn end(&mut self, rt: &impl Print, progress: &mut Progress, out: &mut Output) {
        if self.length != Some(0) {
            self.answer(rt, progress, out);
            out.flush(rt);
        }
    }
}
