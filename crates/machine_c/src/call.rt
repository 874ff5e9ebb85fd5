// Any call, by its number and arguments as words.
ghost use Rattle.std.specs.Prelude.{◌≡◌, true, length, drop, replicate};
ghost use Rattle.laws.specs.Lists.{pad};
ghost use Rattle.model.specs.Meant.{meant};
ghost use Rattle.model.specs.Run.{call};
ghost use Rattle.call_rows.specs.Asked.{starts_with};
ghost use Rattle.call_runs.specs.RunAll.{RanAll};
ghost use Rattle.calls.specs.Answered.{Leaves};
ghost use Rattle.calls.specs.Ran.{reply_on};
ghost use Rattle.machine_c.specs.Out.{StartTold};
ghost use Rattle.machine_c.specs.Called.{CallTold};

use call_rows::asked::{call_in, is_start};
use call_rows::told::{tell_answer, tell_done};
use model::Call;
use regions::list::put_zeros;

// The numbers are those of include/machine.h; start is 0, with the files' rows behind it. Of a call all of `out`, 65 words, is set: its
// results, then zeros. Words that are no call are 1, BadTable, and change nothing, `out` neither.
#[unsafe(no_mangle)]
pub extern "C" fn machine_call(
    words: &mut [u64],
    frames: &mut [u8],
    files: &[u8],
    call: &[u64],
    out: &mut [u64],
) -> u64
    ensures { CallTold call.now words.old frames.old files.now out.old words.new frames.new out.new result }
{
    if out.len() != 65 {
        return 1;
    }
    if is_start(call) {
        return start_call(words, &frames[..], files, call, out);
    }
    match call_in(call) {
        None => 1,
        Some(asked) => run_call(words, frames, files, asked, out),
    }
}

// Many calls with one soundness test: each as how many words it has, then the words that machine_call takes. Answers how many ran; each
// answer is a row of 66 words, the number that machine_call gives and its `out`, and a call whose row has no room does not run.
#[unsafe(no_mangle)]
pub extern "C" fn machine_run(
    words: &mut [u64],
    frames: &mut [u8],
    files: &[u8],
    calls: &[u64],
    answers: &mut [u64],
) -> u64
    ensures { RanAll calls.now words.old frames.old files.now answers.old words.new frames.new answers.new result }
{
    call_runs::run_all(words, frames, files, calls, answers) as u64
}

// Start, with the rows behind its number.
fn start_call(words: &mut [u64], frames: &[u8], files: &[u8], call: &[u64], out: &mut [u64]) -> u64
    requires out_len { length out.old ≡ 65 }
    requires call_value { starts_with call.now ≡ true }
    ensures start_told { StartTold words.old frames.now files.now (drop 1 call.now) words.new result }
    ensures out_after { out.new ≡ replicate 65 0 }
{
    put_nothing(out);
    tell_done(calls::start(words, frames, files, &call[1..]))
}

// Runs a call and tells its answer.
fn run_call(words: &mut [u64], frames: &mut [u8], files: &[u8], asked: Call, out: &mut [u64]) -> u64
    requires { length out.old ≡ 65 }
    ensures value { result ≡ (reply_on asked words.old frames.old files.now).number }
    ensures out_after { out.new ≡ pad 65 0 (reply_on asked words.old frames.old files.now).values }
    ensures leaves { Leaves (λ s. call (meant asked) s) words.old frames.old files.now words.new frames.new }
{
    put_nothing(out);
    let answer = calls::run(words, frames, files, &mut out[1..], asked);
    tell_answer(answer, out)
}

// All of `out` zeros.
fn put_nothing(out: &mut [u64])
    requires { length out.old ≡ 65 }
    ensures { out.new ≡ replicate 65 0 }
{
    put_zeros(&mut out[1..]);
    out[0] = 0;
}
