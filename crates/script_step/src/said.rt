// What is written of a line.
use answer_text::Answer;
use call_text::Fault;
use segments::VirtualMemoryManager;

#[derive(Clone, Copy)]
pub enum Said {
    Nothing,
    Fault(Fault),
    // What the machine lists stands in the memory that is lent for starts.
    Answer(Answer),
    // The list of this manager's segments.
    List(VirtualMemoryManager),
    // The machine, line by line.
    State,
}

// What is written of a line, and what the line leaves: of the lone manager, the machine or the whole session.
#[derive(Clone, Copy)]
pub struct Stepped<T> {
    pub said: Said,
    pub after: T,
}
