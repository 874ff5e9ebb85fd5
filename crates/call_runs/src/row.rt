// One call of many: its words in, the row of its answer out.
ghost use Rattle.std.specs.Prelude.{◌≡◌, true, false, ◌∷◌, length, replicate, Some};
ghost use Rattle.call_rows.specs.Asked.{call_in, starts_with};
ghost use Rattle.soundness.specs.SoundLent.{sound_lent};
ghost use Rattle.call_runs.specs.RunAll.{RanOne};

use call_rows::asked::{call_in, is_start};
use call_rows::told::{tell_answer, tell_done};
use model::Call;
use process::start::start;
use regions::list::put_zeros;
use step::step;

// Runs a call and sets its row. `sound` is whether the machine is, and so is what comes back.
pub fn run_row(
    words: &mut [u64],
    frames: &mut [u8],
    files: &[u8],
    call: &[u64],
    row: &mut [u64],
    sound: bool,
) -> bool
    requires row_len { length row.old ≡ 66 }
    requires sound_value { sound ≡ sound_lent words.old frames.old files.now }
    ensures ran_one { RanOne call.now words.old frames.old files.now words.new frames.new row.new }
    ensures value { result ≡ sound_lent words.new frames.new files.now }
{
    put_refusal(row);
    if is_start(call) {
        return start_row(words, &frames[..], files, call, row, sound);
    }
    let Some(asked) = call_in(call) else {
        return sound;
    };
    if !sound {
        return false;
    }
    step_row(words, frames, files, call, asked, row);
    true
}

// The row of BadTable: what stands there until a call has answered.
fn put_refusal(row: &mut [u64])
    requires { length row.old ≡ 66 }
    ensures { row.new ≡ 1 ∷ replicate 65 0 }
{
    put_zeros(&mut row[2..]);
    row[1] = 0;
    row[0] = 1;
}

// Start, with the rows of files behind its number: where it is granted the machine is sound, else it is what it was.
fn start_row(
    words: &mut [u64],
    frames: &[u8],
    files: &[u8],
    call: &[u64],
    row: &mut [u64],
    sound: bool,
) -> bool
    requires row_value { row.old ≡ 1 ∷ replicate 65 0 }
    requires call_value { starts_with call.now ≡ true }
    requires sound_value { sound ≡ sound_lent words.old frames.now files.now }
    ensures ran_one { RanOne call.now words.old frames.now files.now words.new frames.now row.new }
    ensures value { result ≡ sound_lent words.new frames.now files.now }
{
    let answer = start(words, frames, files, &call[1..]);
    row[0] = tell_done(answer);
    match answer {
        Ok(()) => true,
        Err(_) => sound,
    }
}

// A call on a sound machine.
fn step_row(
    words: &mut [u64],
    frames: &mut [u8],
    files: &[u8],
    call: &[u64],
    asked: Call,
    row: &mut [u64],
)
    requires row_value { row.old ≡ 1 ∷ replicate 65 0 }
    requires call_value { starts_with call.now ≡ false }
    requires asked_value { Some asked ≡ call_in call.now }
    requires files_value { sound_lent words.old frames.old files.now ≡ true }
    ensures ran_one { RanOne call.now words.old frames.old files.now words.new frames.new row.new }
    ensures true_value { true ≡ sound_lent words.new frames.new files.now }
{
    let answer = step(words, frames, files, &mut row[2..], asked);
    row[0] = tell_answer(answer, &mut row[1..]);
}
