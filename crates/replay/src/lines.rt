// A line's call: carried out on the unit and the store, and answered.
use crate::output::Output;
use crate::progress::{NoCall, Progress};
use crate::stores::large_buffer;
use crate::{answers, shown};
use calls::{Call, Reply};
use plant::GivenSettings;
use script::{Ask, Taken};
use script_words::word;
use unit::Unit;

// The bytes that a word stands for, so many of those in the buffer, where it stands for any.
fn field(room: &[u8], count: Option<usize>) -> Result<&[u8], NoCall> {
    let count = count.ok_or(NoCall::Unknown)?;
    let end = count.min(room.len());
    Ok(&room[..end])
}

// The call that takes it.
fn call_of(taken: Taken) -> Call {
    match taken {
        Taken::File => Call::File,
        Taken::Response => Call::Response,
    }
}

impl Progress<'_> {
    // 'Before an accepted install everything else answers `no unit`.'
    fn installed(&self) -> Result<Unit, NoCall> {
        self.unit.ok_or(NoCall::NoUnit)
    }

    // A call of the plain machine, through the unit's step.
    fn step(
        &mut self,
        call: Call,
        label: &[u8],
        bytes: &[u8],
        out: &mut Output,
    ) -> Result<(), NoCall> {
        let unit = self.installed()?;
        let lent = self.lent.min(self.store.len());
        let stepped = calls::step(unit, call, label, bytes, &mut self.store[..lent]);
        self.unit = Some(stepped.unit);
        answers::put_reply(out, stepped.reply);
        Ok(())
    }

    // 'A refused install keeps the unit there was; an accepted one keeps the store.'
    fn install(
        &mut self,
        line: &[u8],
        given: GivenSettings,
        out: &mut Output,
    ) -> Result<(), NoCall> {
        let mut id = large_buffer();
        let mut mac = large_buffer();
        let long = script_fields::digits_of(word(line, 1), &mut id);
        let wide = script_fields::bytes_of(word(line, 2), &mut mac);
        let made = Unit::install(field(&id, long)?, field(&mac, wide)?, given);
        if made.answer.is_ok() {
            self.unit = Some(made.unit);
        }
        answers::put_reply(out, Reply::Done(made.answer));
        Ok(())
    }

    // A file's name and body, or a response's boundary and bytes. One function reads both: its two buffers are the largest part of the stack.
    fn take(&mut self, taken: Taken, line: &[u8], out: &mut Output) -> Result<(), NoCall> {
        let mut label = large_buffer();
        let mut bytes = large_buffer();
        let long = script_fields::bytes_of(word(line, 1), &mut label);
        let wide = script_fields::hex_of(word(line, 2), &mut bytes);
        self.step(
            call_of(taken),
            field(&label, long)?,
            field(&bytes, wide)?,
            out,
        )
    }

    fn request(&self, line: &[u8], out: &mut Output) -> Result<(), NoCall> {
        let mut segment = large_buffer();
        let long = script_fields::bytes_of(word(line, 1), &mut segment);
        let segment = field(&segment, long)?;
        let unit = self.installed()?;
        answers::put_request(out, unit, segment);
        Ok(())
    }

    fn show_state(&self, out: &mut Output) -> Result<(), NoCall> {
        let unit = self.installed()?;
        shown::put_state(out, unit);
        Ok(())
    }

    fn show_block(&self, month: u64, out: &mut Output) -> Result<(), NoCall> {
        let unit = self.installed()?;
        let lent = self.lent.min(self.store.len());
        shown::put_block(out, unit.pool, month, &self.store[..lent]);
        Ok(())
    }

    // What a line asks for; a silent line, nothing.
    fn carry_out(&mut self, line: &[u8], out: &mut Output) -> Result<(), NoCall> {
        match script::ask_of(line) {
            Ask::Nothing => Ok(()),
            Ask::Unknown => Err(NoCall::Unknown),
            Ask::Install(given) => self.install(line, given, out),
            Ask::Store(length, byte) => {
                self.lend(length, byte, out);
                Ok(())
            }
            Ask::Byte(index, value) => self.spoil(index, value, out),
            Ask::Tick(t) => self.step(Call::Tick(t), b"", b"", out),
            Ask::Lost => self.step(Call::ClockLost, b"", b"", out),
            Ask::Take(taken) => self.take(taken, line, out),
            Ask::Failure(kind, status) => self.step(Call::Failure(kind, status), b"", b"", out),
            Ask::Ceiling(slot) => self.step(Call::Ceiling(slot), b"", b"", out),
            Ask::Due => self.step(Call::Due, b"", b"", out),
            Ask::Command => self.step(Call::Command, b"", b"", out),
            Ask::Free => self.step(Call::FreeBlocks, b"", b"", out),
            Ask::Request => self.request(line, out),
            Ask::State => self.show_state(out),
            Ask::Block(month) => self.show_block(month, out),
        }
    }

    // A line, answered; a silent one is not.
    pub(crate) fn answer(&mut self, line: &[u8], out: &mut Output) {
        match self.carry_out(line, out) {
            Ok(()) => {}
            Err(NoCall::Unknown) => out.line(b"unknown"),
            Err(NoCall::NoUnit) => out.line(b"no unit"),
        }
    }
}
