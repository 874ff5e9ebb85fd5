// Many calls as words, with one soundness test for all of them: every call keeps the rules, so a test before each would say the same.
#![tactic(auto)]

ghost use Rattle.std.specs.Prelude.{◌≡◌, ◌≤◌, length};
ghost use Rattle.call_runs.specs.RunAll.{end_of, RanAll};

pub mod row;

use row::run_row;
use soundness::is_sound;

// Words of an answer: its number, its values, zeros.
const ROW_WORDS: usize = 66;

// Runs the calls that stand in `calls`, each as how many words it has and then these words (include/machine.h), and answers how many ran.
// Each answer is a row of 66 words, and a call whose row has no room does not run. What it answers and leaves is what a test before
// every call gives: on memory that is no sound machine BadTable, up to a start that is granted.
pub fn run_all(
    words: &mut [u64],
    frames: &mut [u8],
    files: &[u8],
    calls: &[u64],
    answers: &mut [u64],
) -> usize
    ensures { RanAll calls.now words.old frames.old files.now answers.old words.new frames.new answers.new result }
{
    let rows = answers.len() / ROW_WORDS;
    let mut sound = is_sound(&words[..], &frames[..], files);
    let mut at = 0;
    let mut ran = 0;
    while ran < rows {
        let end = call_end(calls, at);
        if end == 0 {
            return ran;
        }
        let from = ran * ROW_WORDS;
        sound = run_row(
            words,
            frames,
            files,
            &calls[at + 1..end],
            &mut answers[from..from + ROW_WORDS],
            sound,
        );
        at = end;
        ran += 1;
    }
    ran
}

// Where the call at a place ends, 0 where no whole one stands there.
fn call_end(calls: &[u64], at: usize) -> usize
    requires { at ≤ length calls.now }
    ensures { result ≡ end_of calls.now at }
{
    if calls.len() <= at {
        return 0;
    }
    let count = calls[at] as usize;
    if calls.len() - at - 1 < count {
        return 0;
    }
    at + 1 + count
}
