// The answers that are not yet written.
ghost use Rattle.std.specs.Prelude.{◌≡◌, ◌+◌, ◌<◌, ◌≤◌, length, take, true, IfOk, OnOk, OnErr};
ghost use Rattle.std.specs.Io.KnownBytes.{Appends};

use std::io;
use std::io::Write;

// How many bytes of answers are not yet written, and whether to go on.
#[derive(Clone, Copy)]
pub struct Output {
    pub at: usize,
    pub on: bool,
}

impl Output {
    // The run ends here.
    pub fn stopped(self) -> Output
        ensures { result.at ≡ self.at }
    {
        Output {
            at: self.at,
            on: false,
        }
    }

    // With answers that reach so far.
    pub fn reaching(self, at: usize) -> Output
        ensures reaches { result.at ≡ at }
        ensures goes_on { result.on ≡ self.on }
    {
        Output { at, on: self.on }
    }

    // Writes the answers if the longest answer does not fit behind them.
    pub fn with_room<W: Write>(self, writer: &mut W, out: &[u8]) -> io::Result<Output>
        requires at_in_bounds { self.at ≤ length out.now }
        requires in_bounds { 4096 ≤ length out.now }
        ensures room { IfOk result (λ o. o.at + 4096 ≤ length out.now) }
        ensures goes_on { IfOk result (λ o. o.on ≡ self.on) }
        ensures by_write { OnErr result ((self.on ≡ true) × (length out.now < self.at + 4096)) }
    {
        if out.len() - self.at < 4096 {
            self.flushed(writer, out)
        } else {
            Ok(self)
        }
    }

    // Writes the answers, unless the run has ended.
    pub fn flushed<W: Write>(self, writer: &mut W, out: &[u8]) -> io::Result<Output>
        requires { self.at ≤ length out.now }
        ensures none_left { IfOk result (λ o. o.at ≡ 0) }
        ensures goes_on { IfOk result (λ o. o.on ≡ self.on) }
        ensures by_write { OnErr result (self.on ≡ true) }
        ensures written { OnOk result (self.on ≡ true → Appends (W.contents writer.old) (W.contents writer.new) (take self.at out.now)) }
    {
        let at = self.at;
        if !self.on {
            return Ok(Output { at: 0, on: false });
        }
        writer.write_all(&out[..at])?;
        Ok(Output { at: 0, on: true })
    }
}
