// What is written of a line, put behind the answers.
ghost use Rattle.std.specs.Prelude.{◌≡◌, ◌+◌, ◌≤◌, true, length, IfOk, OnErr};

use crate::output::Output;
use answer_text::Answer;
use script_step::said::Said;
use segments::{Segment, VirtualMemoryManager};
use state_text::Cursor;
use std::io;
use std::io::Write;

// Puts what is written of a line; a list from its manager or the starts, the state from the machine.
pub fn put_said<W: Write>(
    output: Output,
    writer: &mut W,
    out: &mut [u8],
    line: &[u8],
    number: u64,
    said: Said,
    words: &[u64],
    frames: &[u8],
    starts: &[u64],
) -> io::Result<Output>
    requires at_in_bounds { output.at + 4096 ≤ length out.old }
    requires starts_len { length starts.now ≡ 64 }
    ensures at_in_bounds_2 { IfOk result (λ o. o.at ≤ length out.old) }
    ensures by_write { OnErr result (output.on ≡ true) }
{
    let at = output.at;
    match said {
        Said::Nothing => Ok(output),
        Said::Fault(fault) => {
            Ok(output.reaching(answer_text::put_fault(out, at, line, number, fault)))
        }
        Said::Answer(answer) => {
            Ok(output.reaching(answer_text::put_listed(out, at, answer, starts)))
        }
        Said::List(manager) => Ok(output.reaching(put_list(out, at, manager))),
        Said::State => put_state(output, writer, out, words, frames),
    }
}

// Puts the answer of `segments`.
fn put_list(out: &mut [u8], at: usize, manager: VirtualMemoryManager) -> usize
    requires { at + 4096 ≤ length out.old }
    ensures { result ≤ at + 4096 }
{
    let list = manager.segments();
    let answer = list.answer;
    let rows = list.segments;
    match answer {
        Err(why) => answer_text::put_answer(out, at, Answer::Refused(why)),
        Ok(count) => {
            let next = answer_text::put_count(out, at, count as u64);
            let next = put_rows(out, next, rows, count);
            text::put(out, next, b"\n")
        }
    }
}

fn put_rows(out: &mut [u8], at: usize, rows: [Segment; 64], count: usize) -> usize
    requires count_bound { count ≤ 64 }
    requires at_in_bounds { at + 2432 ≤ length out.old }
    ensures { result ≤ at + 2432 }
{
    let mut next = at;
    for i in 0..count {
        let row = rows[i];
        next = answer_text::put_pair(out, next, row.start.0, row.len);
    }
    next
}

// Puts the machine line by line, and writes the answers whenever the next line may not fit.
fn put_state<W: Write>(
    output: Output,
    writer: &mut W,
    out: &mut [u8],
    words: &[u64],
    frames: &[u8],
) -> io::Result<Output>
    requires { output.at + 4096 ≤ length out.old }
    ensures at_in_bounds { IfOk result (λ o. o.at ≤ length out.old) }
    ensures by_write { OnErr result (output.on ≡ true) }
{
    let mut output = output;
    let mut next = Some(Cursor::new());
    while let Some(cursor) = next {
        output = output.with_room(writer, &out[..])?;
        let shown = state_text::put_state(out, output.at, words, frames, cursor);
        output = output.reaching(shown.at);
        next = shown.next;
    }
    Ok(output)
}
