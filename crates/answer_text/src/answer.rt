// Answers of one line: nothing, numbers, yes or no, or a refusal.
ghost use Rattle.std.specs.Prelude.{◌+◌, ◌≤◌, length};

use answers::Refusal;
use text::{Row, put, put_decimal, put_hex_word, put_row};

// What a call answers, the machine's state aside. A number is an address or a length, in hexadecimal, or a count. What is listed stands behind
// a list's own answer.
#[derive(Clone, Copy)]
pub enum Answer {
    Done,
    Start(u64, u64),
    Yes,
    No,
    Parts(u64, u64, u64, u64),
    Hex(u64),
    Count(u64),
    List(u64),
    Refused(Refusal),
}

// Puts an answer. The words are the names of refusals by their numbers, from 1 on.
pub fn put_answer(out: &mut [u8], at: usize, answer: Answer) -> usize
    requires { at + 160 ≤ length out.old }
    ensures { result ≤ at + 160 }
{
    put_row(
        out,
        at,
        160,
        row_of(answer),
        b"ok\n ok_yes\n ok_no\n ok_$_#\n ok_$_$_$_$\n ok_$\n ok_#\n no_#_@\n",
        b"- BadTable NoProcess BadAddress BadRange BadFlags NoFile NoRegion NoSpace SegmentReserved InvalidSplitPoint \
        NotReserved NotAccessible NotWritable OutOfMemory ReadFailed MapFailed UnsupportedRegion EagerBacking \
        Shared InUse TableFull Denied",
        b"",
    )
}

// The row of an answer.
fn row_of(answer: Answer) -> Row {
    match answer {
        Answer::Done => Row::new(0, &[]),
        Answer::Yes => Row::new(1, &[]),
        Answer::No => Row::new(2, &[]),
        Answer::Start(start, restarts) => Row::new(3, &[start, restarts]),
        Answer::Parts(a, b, c, d) => Row::new(4, &[a, b, c, d]),
        Answer::Hex(n) => Row::new(5, &[n]),
        Answer::Count(n) | Answer::List(n) => Row::new(6, &[n]),
        Answer::Refused(why) => Row::new(7, &[why.number(), why.number()]),
    }
}

// Puts the start of a list's answer: `ok` and how many there are.
pub fn put_count(out: &mut [u8], at: usize, count: u64) -> usize
    requires { at + 23 ≤ length out.old }
    ensures { result ≤ at + 23 }
{
    let next = put(out, at, b"ok ");
    put_decimal(out, next, count)
}

// Puts a segment, with a blank before each number.
pub fn put_pair(out: &mut [u8], at: usize, start: u64, len: u64) -> usize
    requires { at + 38 ≤ length out.old }
    ensures { result ≤ at + 38 }
{
    let next = put_hex_word(out, at, start);
    put_hex_word(out, next, len)
}
