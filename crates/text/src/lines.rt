// Lines out of chunks of input: where a line ends, and its parts gathered in a buffer.
ghost use Rattle.std.specs.Prelude.{◌≡◌, ◌+◌, ◌≤◌, length, take, drop};
ghost use Rattle.text.specs.Lines.{line_length, without_return, Gathered};

use crate::write::put;

// How much of a line the buffer holds, and whether the line is longer than the buffer.
// Borrowing the buffer is no plainer: the program's `Session`, which has this as a field, goes by value beside its buffers.
#[derive(Clone, Copy)]
pub struct Held {
    pub len: usize,
    pub long: bool,
}

impl Held {
    // Nothing yet.
    pub fn new() -> Held
        ensures { result.len ≡ 0 }
    {
        Held {
            len: 0,
            long: false,
        }
    }
}

// The place of the first newline from `at` on, or the chunk's length.
pub fn line_end(chunk: &[u8], at: usize) -> usize
    requires { at ≤ length chunk.now }
    ensures value { result ≡ at + line_length (drop at chunk.now) }
    ensures lower_bound { (at ≤ result) × (result ≤ length chunk.now) }
{
    at + line_length(&chunk[at..])
}

// How many bytes stand before the first newline.
#[tactic(auto, unfolding(crate::specs::Lines::line_length))]
fn line_length(text: &[u8]) -> usize
    ensures value { result ≡ line_length text.now }
    ensures upper_bound { result ≤ length text.now }
{
    text.iter().take_while(|&&byte| byte != b'\n').count()
}

// Puts one more part of the line behind what is held.
#[tactic(auto, using(crate::specs::LinesLaws::stays_long, crate::specs::LinesLaws::gets_long, crate::specs::LinesLaws::gathers))]
pub fn gather(line: &mut [u8], held: Held, part: &[u8]) -> Held
    requires { held.len ≤ length line.old }
    ensures { Gathered line.old held part.now line.new result }
{
    if held.long {
        return held;
    }
    if line.len() - held.len < part.len() {
        return Held { long: true, ..held };
    }
    Held {
        len: put(line, held.len, part),
        long: false,
    }
}

// The line without a carriage return at its end.
#[tactic(auto, using(crate::specs::LinesLaws::return_left, crate::specs::LinesLaws::no_return, crate::specs::LinesLaws::nothing_taken))]
pub fn without_return(line: &[u8]) -> &[u8]
    ensures value { result.now ≡ take (without_return line.now) line.now }
    ensures length { length result.now ≡ without_return line.now }
    ensures upper_bound { length result.now ≤ length line.now }
{
    line.strip_suffix(b"\r").unwrap_or(line)
}
