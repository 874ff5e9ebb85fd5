// Calls of any kind with one soundness test for all of them, for C and Rust programs on a machine that the caller lends: the oracle's
// example `cores` links it, to time a call's core without the test.
ghost use Rattle.std.specs.Prelude.{◌+◌, ◌≤◌, length};

use answers::Refusal;
use call_words::call_of;
use model::{Answer, Call, SLOTS};
use soundness::is_sound;
use step::step;

// Words of a call: its number, then ten arguments.
const CALL_WORDS: usize = 11;

// Runs calls up to the first words that are none, and answers how many were granted. A machine that is not sound, and starts that are not
// 64, are left alone.
#[unsafe(no_mangle)]
pub extern "C" fn bench_steps(
    words: &mut [u64],
    frames: &mut [u8],
    files: &[u8],
    starts: &mut [u64],
    calls: &[u64],
) -> u64 {
    if starts.len() != SLOTS {
        return 0;
    }
    if !is_sound(&words[..], &frames[..], files) {
        return 0;
    }
    let mut granted = 0;
    let mut at = 0;
    while CALL_WORDS <= calls.len() - at {
        let Some(asked) = call_at(calls, at) else {
            return granted;
        };
        let answer = step(words, frames, files, starts, asked);
        granted = std::num::wrapping_add_u64(granted, one_if_granted(answer));
        at += CALL_WORDS;
    }
    granted
}

// The call in the words from a place on.
fn call_at(calls: &[u64], at: usize) -> Option<Call>
    requires { at + 11 ≤ length calls.now }
{
    let args = [
        calls[at + 1],
        calls[at + 2],
        calls[at + 3],
        calls[at + 4],
        calls[at + 5],
        calls[at + 6],
        calls[at + 7],
        calls[at + 8],
        calls[at + 9],
        calls[at + 10],
    ];
    call_of(calls[at], args)
}

// 1 for a call that was done; one that answers neither so nor with a list counts 0.
fn one_if_granted(answer: Answer) -> u64 {
    match answer {
        Answer::Done(done) => one_if_done(done),
        Answer::Opened(_) => 0,
        Answer::Placed(_) => 0,
        Answer::Covering(_) => 0,
        Answer::Loaded(_) => 0,
        Answer::Counted(list) => {
            let done = list.done;
            return one_if_done(done);
        }
    }
}

fn one_if_done(done: Result<(), Refusal>) -> u64 {
    match done {
        Ok(()) => 1,
        Err(_) => 0,
    }
}
