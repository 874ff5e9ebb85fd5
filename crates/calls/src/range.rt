// Carve: the regions that cross a bound of a range are split there.
ghost use Rattle.std.specs.Prelude.{◌≡◌};
ghost use Rattle.model.specs.declared.Answer.TheVariants as answer;
ghost use Rattle.model.specs.declared.Call.TheVariants as call;
ghost use Rattle.calls.specs.Ran.{Ran};

use crate::any_call::{none, put_none};
use carve::cores::carve_core;
use model::{Counted, SLOTS};
use soundness::is_sound;

// Splits regions at the bounds of a range, and puts the starts of the regions inside into `starts`, in list order, which is 64 words.
pub fn carve(
    words: &mut [u64],
    frames: &[u8],
    files: &[u8],
    starts: &mut [u64],
    process: u64,
    start: u64,
    end: u64,
) -> Counted
    ensures { Ran (call.Carve process start end) words.old frames.now files.now starts.old words.new frames.now starts.new (answer.Counted result) }
{
    if starts.len() != SLOTS {
        return none();
    }
    if !is_sound(&words[..], frames, files) {
        return put_none(starts);
    }
    carve_core(words, starts, process, start, end)
}
