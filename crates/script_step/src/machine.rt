// The script's machine: which part of the memory it is lent, and what a line leaves of it.
ghost use Rattle.std.specs.Prelude.{◌≡◌, false, ◌≤◌, length};
ghost use Rattle.call_text.specs.declared.asked.Why.TheVariants as why;
ghost use Rattle.call_text.specs.Faults.{whole_fault};
ghost use Rattle.script_step.specs.declared.said.Said.TheVariants as said;
ghost use Rattle.script_step.specs.FileStep.{says, faulty, filed, spelled};
ghost use Rattle.script_step.specs.MachineStep.{Lends, Began, Answers, wanted_as, Stepping};

use crate::file::{in_line, put_bytes};
use crate::said::{Said, Stepped};
use answer_text::{Answer, written_as};
use answers::Refusal;
use call_text::{Asked, Why, whole_fault};
use model::{Call, FILES, FRAME_BYTES};
use text::Word;

// How much of the lent memory is in use: bytes of frames, files and their bytes; and the files' rows, three words each.
#[derive(Clone, Copy)]
pub struct Machine {
    pub started: bool,
    pub frames: usize,
    pub files: usize,
    pub bytes: usize,
    pub rows: [u64; 24],
}

impl Machine {
    // No machine yet, and no files.
    pub fn new() -> Machine
        ensures { (result.started ≡ false) × (result.frames ≡ 0) × (result.files ≡ 0) × (result.bytes ≡ 0) }
    {
        Machine {
            started: false,
            frames: 0,
            files: 0,
            bytes: 0,
            rows: [0u64; 24],
        }
    }

    pub fn says(self, said: Said) -> Stepped<Machine>
        ensures { result ≡ says self said }
    {
        Stepped { said, after: self }
    }

    // The line as a whole is wrong.
    fn fails(self, why: Why) -> Stepped<Machine>
        ensures { result ≡ faulty self why }
    {
        self.says(Said::Fault(whole_fault(why)))
    }

    // One file more, behind the others; its bytes are a word of the line.
    pub fn file(
        self,
        readable: bool,
        line: &[u8],
        digits: Word,
        files: &mut [u8],
    ) -> Stepped<Machine>
        requires { self.bytes ≤ length files.old }
        ensures { (result, files.new) ≡ filed self readable (spelled line.now digits) files.old }
    {
        if self.started {
            return self.fails(Why::FilesFirst);
        }
        if FILES <= self.files {
            return self.fails(Why::TooManyFiles);
        }
        let word = in_line(line.len(), digits);
        let from = word.from;
        let to = word.to;
        let len = (to - from) / 2;
        let bytes = self.bytes;
        if files.len() - bytes < len {
            return self.fails(Why::TooManyBytes);
        }
        put_bytes(files, bytes, &line[from..to]);
        Stepped {
            said: Said::Answer(Answer::Count(self.files as u64)),
            after: self.with_file(readable, len),
        }
    }

    // Begins anew with so many frames. The files stay; a refused start leaves what was.
    pub fn start(
        self,
        count: u64,
        words: &mut [u64],
        frames: &[u8],
        files: &[u8],
    ) -> Stepped<Machine>
        requires { Lends self (length frames.now) (length files.now) }
        ensures { Began self count words.old frames.now files.now words.new result }
    {
        let most = frames.len() as u64 / 4096;
        if most < count {
            return self.says(Said::Answer(Answer::Refused(Refusal::BadTable)));
        }
        let n = count as usize * FRAME_BYTES;
        let b = self.bytes;
        let k = self.files * 3;
        let rows = self.rows;
        match calls::start(words, &frames[..n], &files[..b], &rows[..k]) {
            Ok(()) => Stepped {
                said: Said::Answer(Answer::Done),
                after: Machine {
                    started: true,
                    frames: n,
                    files: self.files,
                    bytes: b,
                    rows,
                },
            },
            Err(why) => self.says(Said::Answer(Answer::Refused(why))),
        }
    }

    // Runs a call on the memory that is lent.
    pub fn answer(
        self,
        call: Call,
        words: &mut [u64],
        frames: &mut [u8],
        files: &[u8],
        starts: &mut [u64],
    ) -> Said
        requires frames_in_bounds { self.frames ≤ length frames.old }
        requires bytes_in_bounds { self.bytes ≤ length files.now }
        ensures { Answers self call words.old frames.old files.now starts.old words.new frames.new starts.new result }
    {
        if !self.started {
            return no_machine();
        }
        let n = self.frames;
        let b = self.bytes;
        let answer = calls::run(words, &mut frames[..n], &files[..b], starts, call);
        Said::Answer(written_as(answer))
    }

    // What only a machine that is there has.
    pub fn wanted(self, said: Said) -> Said
        ensures { result ≡ wanted_as self said }
    {
        if !self.started {
            return no_machine();
        }
        said
    }
}

fn no_machine() -> Said
    ensures { result ≡ said.Fault (whole_fault why.NoMachine) }
{
    Said::Fault(whole_fault(Why::NoMachine))
}

// What a line asks of the machine. The lone manager's calls are not its own.
pub fn step(
    machine: Machine,
    asked: Asked,
    line: &[u8],
    words: &mut [u64],
    frames: &mut [u8],
    files: &mut [u8],
    starts: &mut [u64],
) -> Stepped<Machine>
    requires { Lends machine (length frames.old) (length files.old) }
    ensures stepping { Stepping machine asked line.now words.old frames.old files.old starts.old words.new frames.new files.new starts.new result }
    ensures lends { Lends result.after (length frames.old) (length files.old) }
{
    match asked {
        Asked::Nothing => machine.says(Said::Nothing),
        Asked::Bad(fault) => machine.says(Said::Fault(fault)),
        Asked::Lone(_) => machine.says(Said::Nothing),
        Asked::File(readable, digits) => machine.file(readable, line, digits, files),
        Asked::Start(count) => machine.start(count, words, &frames[..], &files[..]),
        Asked::Machine(call) => {
            machine.says(machine.answer(call, words, frames, &files[..], starts))
        }
        Asked::State => machine.says(machine.wanted(Said::State)),
    }
}
