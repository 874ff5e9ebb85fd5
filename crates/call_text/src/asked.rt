// What a line of a script can ask for, and what can be wrong with it.
ghost use Rattle.std.specs.Prelude.{◌≡◌};
ghost use Rattle.call_text.specs.Faults.{word_fault, whole_fault};

use model::Call;
use text::Word;

// A bad line stays one of the things asked, because the step's definition says what each of them does.
#[derive(Clone, Copy)]
pub enum Asked {
    // A blank line or a comment.
    Nothing,
    Bad(Fault),
    Lone(LoneCall),
    // A file: whether it can be read, and the word of its hexadecimal digits, empty for an empty file.
    File(bool, Word),
    // A machine of so many frames.
    Start(u64),
    Machine(Call),
    // The machine, line by line.
    State,
}

// A call of the lone manager.
#[derive(Clone, Copy, Debug, PartialEq, Eq)]
pub enum LoneCall {
    Manager(u64, u64),
    Reserve(u64),
    Mark(u64, u64),
    Release(u64, u64),
    Split(u64, u64, u64),
    Segments,
}

// What is wrong with a line: the operand, by its letter, and the word of the line that it is about, where it is about one.
#[derive(Clone, Copy)]
pub struct Fault {
    pub why: Why,
    pub what: u8,
    pub word: Word,
}

#[derive(Clone, Copy, Debug, PartialEq, Eq)]
pub enum Why {
    UnknownCall,
    Missing,
    NoNumber,
    TooLarge,
    Neither,
    NoByte,
    NoBytes,
    TooManyWords,
    LongLine,
    NoManager,
    NoMachine,
    FilesFirst,
    TooManyFiles,
    TooManyBytes,
}

// What is wrong with a word that is no operand.
pub fn word_fault(why: Why, word: Word) -> Fault
    ensures { result ≡ word_fault why word }
{
    Fault { why, what: 0, word }
}

// What is wrong with a line as a whole.
pub fn whole_fault(why: Why) -> Fault
    ensures { result ≡ whole_fault why }
{
    word_fault(why, Word { from: 0, to: 0 })
}
