// A run of a script: its manager, its machine, what is read and held of the input, and the answers that are not yet written.
ghost use Rattle.std.specs.Prelude.{◌≡◌, ℕ, ◌≤◌, length, take, true, IfOk, OnErr};
ghost use Rattle.std.specs.Io.KnownBytes.{Keeps, Consumes};
ghost use Rattle.script_step.specs.MachineStep.{Lends};
ghost use Rattle.script.specs.Session.{Kept, Reads};

use crate::output::Output;
use crate::show::put_said;
use call_text::{Asked, LoneCall};
use script_step::lone::Lone;
use script_step::machine::{Machine, step};
use script_step::said::{Said, Stepped};
use std::io;
use std::io::{Read, Write};
use text::Held;

#[derive(Clone, Copy)]
pub struct Session {
    pub lone: Lone,
    pub machine: Machine,
    // The part of the input that was read and not yet looked at, and whether the input has ended.
    pub from: usize,
    pub to: usize,
    pub last: bool,
    // What is held of the line that is being read, whether it has ended, and how many lines came before it.
    pub held: Held,
    pub ended: bool,
    pub lines: u64,
    pub output: Output,
}

impl Session {
    pub fn new() -> Session
        ensures kept { (line out frames files starts : ℕ) → 4096 ≤ out → starts ≡ 64 → Kept result line out frames files starts }
        ensures by_index { (input : ℕ) → Reads result input }
    {
        Session {
            lone: Lone::new(),
            machine: Machine::new(),
            from: 0,
            to: 0,
            last: false,
            held: Held::new(),
            ended: false,
            lines: 0,
            output: Output { at: 0, on: true },
        }
    }

    // Once all input is looked at, writes the answers and reads more.
    pub fn filled<R: Read, W: Write>(
        mut self,
        reader: &mut R,
        input: &mut [u8],
        writer: &mut W,
        out: &[u8],
    ) -> io::Result<Session>
        requires at_in_bounds { self.output.at ≤ length out.now }
        requires reads { Reads self (length input.old) }
        ensures kept { IfOk result (λ s. (line frames files starts : ℕ) → Kept self line (length out.now) frames files starts → Kept s line (length out.now) frames files starts) }
        ensures reads_2 { IfOk result (λ s. Reads s (length input.old)) }
        ensures not_read { OnErr result (Keeps (R.remaining reader.old) (R.remaining reader.new)) }
        ensures by_stream { OnErr result (self.to ≤ self.from) }
    {
        if self.from < self.to {
            return Ok(self);
        }
        let output = self.output;
        let output = output.flushed(writer, out)?;
        self.output = output;
        if self.last {
            self.output = output.stopped();
            return Ok(self);
        }
        self.read(reader, input)
    }

    // Reads once. At the end the last line may have no newline; a blank line more says nothing.
    fn read<R: Read>(mut self, reader: &mut R, input: &mut [u8]) -> io::Result<Session>
        ensures kept { IfOk result (λ s. (line out frames files starts : ℕ) → Kept self line out frames files starts → Kept s line out frames files starts) }
        ensures reads { IfOk result (λ s. Reads s (length input.old)) }
        ensures bytes { IfOk result (λ s. (s.from ≡ 0) × Consumes (R.remaining reader.old) (R.remaining reader.new) (take s.to input.new)) }
        ensures not_read { OnErr result (Keeps (R.remaining reader.old) (R.remaining reader.new)) }
    {
        let got = reader.read(input)?;
        self.from = 0;
        self.to = got;
        self.last = got == 0;
        Ok(self)
    }

    // Holds what is read up to the line's end.
    pub fn gathered(mut self, input: &[u8], line: &mut [u8]) -> Session
        requires len_in_bounds { self.held.len ≤ length line.old }
        requires reads { Reads self (length input.now) }
        ensures kept { (out frames files starts : ℕ) → Kept self (length line.old) out frames files starts → Kept result (length line.old) out frames files starts }
        ensures reads_2 { Reads result (length input.now) }
    {
        let from = self.from;
        let to = self.to;
        let end = text::line_end(&input[..to], from);
        let held = text::gather(line, self.held, &input[from..end]);
        self.held = held;
        if end < to {
            self.from = end + 1;
            self.ended = true;
            return self;
        }
        self.from = to;
        self.ended = self.last;
        self
    }

    // Runs the line that is held, if it has ended, and puts its answer.
    pub fn answered<W: Write>(
        self,
        line: &[u8],
        writer: &mut W,
        out: &mut [u8],
        words: &mut [u64],
        frames: &mut [u8],
        files: &mut [u8],
        starts: &mut [u64],
    ) -> io::Result<Session>
        requires { Kept self (length line.now) (length out.old) (length frames.old) (length files.old) (length starts.old) }
        ensures kept { IfOk result (λ s. Kept s (length line.now) (length out.old) (length frames.old) (length files.old) (length starts.old)) }
        ensures by_index { IfOk result (λ s. (input : ℕ) → Reads self input → Reads s input) }
        ensures by_write { OnErr result ((self.ended ≡ true) × (self.output.on ≡ true)) }
    {
        if !self.ended {
            return Ok(self);
        }
        let asked = call_text::held_call(line, self.held);
        let taken = self.taken();
        // What is said has room for a whole manager, which is much to carry on for a blank line or a comment.
        if let Asked::Nothing = asked {
            return taken.with_room(writer, &out[..]);
        }
        let heard = taken.ran(asked, line, words, frames, files, starts);
        let said = heard.said;
        let session = heard.after;
        session.put(
            said,
            line,
            writer,
            out,
            &words[..],
            &frames[..],
            &starts[..],
        )
    }

    // The line that is held has been taken.
    fn taken(mut self) -> Session
        ensures held_value { (result.held.len ≡ 0) × (result.output ≡ self.output) × (result.machine ≡ self.machine) }
        ensures by_index { (input : ℕ) → Reads self input → Reads result input }
    {
        self.held = Held::new();
        self.lines = std::num::wrapping_add_u64(self.lines, 1);
        self
    }

    // Writes the answers if the longest answer does not fit behind them.
    fn with_room<W: Write>(mut self, writer: &mut W, out: &[u8]) -> io::Result<Session>
        requires at_in_bounds { self.output.at ≤ length out.now }
        requires in_bounds { 4096 ≤ length out.now }
        ensures at_in_bounds_2 { IfOk result (λ s. s.output.at ≤ length out.now) }
        ensures held_value { IfOk result (λ s. (s.held ≡ self.held) × (s.machine ≡ self.machine)) }
        ensures by_index { IfOk result (λ s. (input : ℕ) → Reads self input → Reads s input) }
        ensures by_write { OnErr result (self.output.on ≡ true) }
    {
        let output = self.output;
        self.output = output.with_room(writer, out)?;
        Ok(self)
    }

    // Runs a line that was taken.
    fn ran(
        mut self,
        asked: Asked,
        line: &[u8],
        words: &mut [u64],
        frames: &mut [u8],
        files: &mut [u8],
        starts: &mut [u64],
    ) -> Stepped<Session>
        requires { Lends self.machine (length frames.old) (length files.old) }
        ensures held_value { (result.after.held ≡ self.held) × (result.after.output ≡ self.output) }
        ensures lends_2 { Lends result.after.machine (length frames.old) (length files.old) }
        ensures by_index { (input : ℕ) → Reads self input → Reads result.after input }
    {
        if let Asked::Lone(call) = asked {
            return self.managed(call);
        }
        let machine = self.machine;
        let stepped = step(machine, asked, line, words, frames, files, starts);
        let said = stepped.said;
        let machine = stepped.after;
        self.machine = machine;
        Stepped { said, after: self }
    }

    // Runs a call of the lone manager.
    fn managed(mut self, call: LoneCall) -> Stepped<Session>
        ensures held_value { (result.after.held ≡ self.held) × (result.after.output ≡ self.output) × (result.after.machine ≡ self.machine) }
        ensures by_index { (input : ℕ) → Reads self input → Reads result.after input }
    {
        let lone = self.lone;
        let step = lone.step(call);
        let said = step.said;
        let after = step.after;
        self.lone = after;
        Stepped { said, after: self }
    }

    // Puts what is written of the line, of the machine's memory what it is lent.
    fn put<W: Write>(
        mut self,
        said: Said,
        line: &[u8],
        writer: &mut W,
        out: &mut [u8],
        words: &[u64],
        frames: &[u8],
        starts: &[u64],
    ) -> io::Result<Session>
        requires at_in_bounds { self.output.at ≤ length out.old }
        requires in_bounds { 4096 ≤ length out.old }
        requires frames_in_bounds { self.machine.frames ≤ length frames.now }
        requires starts_len { length starts.now ≡ 64 }
        ensures at_in_bounds_2 { IfOk result (λ s. s.output.at ≤ length out.old) }
        ensures held_value { IfOk result (λ s. (s.held ≡ self.held) × (s.machine ≡ self.machine)) }
        ensures by_index { IfOk result (λ s. (input : ℕ) → Reads self input → Reads s input) }
        ensures by_write { OnErr result (self.output.on ≡ true) }
    {
        let output = self.output;
        let machine = self.machine;
        let n = machine.frames;
        let output = put_said(
            output.with_room(writer, &out[..])?,
            writer,
            out,
            line,
            self.lines,
            said,
            words,
            &frames[..n],
            starts,
        )?;
        self.output = output;
        Ok(self)
    }
}
