// The core of the call.
ghost use Rattle.std.specs.Prelude.{◌≡◌, ◌<◌, length, replicate};
ghost use Rattle.model.specs.Layout.{word_count, machine};
ghost use Rattle.model.specs.Carve.{bad_bounds};
ghost use Rattle.model.specs.Calls as calls;
ghost use Rattle.rows.specs.LentMemory.{SoundWords, DoesWords};
ghost use Rattle.regions.specs.Starts.{with_starts};
ghost use Rattle.carve.specs.CarveCore.{Carvable, Carved};

use crate::walk::carve_each;
use address::{PAGE_SIZE, USER_END};
use answers::Refusal;
use carve_inside::answer::carve_answer;
use carve_taken::take_out;
use lookup::search::is_open;
use model::Counted;
use regions::list::put_zeros;

// Whether bounds are not page-aligned, in the wrong order, or past the user addresses (RULES V1).
fn is_bad_bounds(start: u64, end: u64) -> bool
    ensures { result ≡ bad_bounds start end }
{
    if start % PAGE_SIZE != 0 {
        return true;
    }
    if end % PAGE_SIZE != 0 {
        return true;
    }
    if end < start {
        return true;
    }
    USER_END < end
}

// Carves a range out of an open process's regions, of a sound machine. The array has the slots of the regions taken out, and then the starts.
fn carve_range(words: &mut [u64], out: &mut [u64], process: usize, start: u64, end: u64) -> Counted
    requires words_len { length words.old ≡ word_count }
    requires out_len { length out.old ≡ 64 }
    requires carvable { Carvable words.old process start end }
    ensures { Carved (machine words.old) process start end (machine words.new) (with_starts result out.new) }
{
    let count = take_out(words, out, process, start, end);
    let splits = carve_each(words, &out[..], count, process, start, end);
    put_zeros(out);
    carve_answer(&words[..], out, splits, process, start, end)
}

// Carves a range out of a process's regions, of a sound machine, with an array of zeros for the starts.
fn carve_into(words: &mut [u64], out: &mut [u64], process: u64, start: u64, end: u64) -> Counted
    requires words_len { length words.old ≡ word_count }
    requires out_value { out.old ≡ replicate 64 0 }
    requires sound_words { SoundWords words.old }
    ensures { DoesWords (λ s. calls.carve s process start end) words.old words.new (with_starts result out.new) }
{
    if !is_open(&words[..], process) {
        return Counted {
            done: Err(Refusal::NoProcess),
            count: 0,
        };
    }
    if is_bad_bounds(start, end) {
        return Counted {
            done: Err(Refusal::BadRange),
            count: 0,
        };
    }
    carve_range(words, out, process as usize, start, end)
}

// Carves a range out of a process's regions, of a sound machine, and puts the starts of those inside into lent memory.
pub fn carve_core(
    words: &mut [u64],
    starts: &mut [u64],
    process: u64,
    start: u64,
    end: u64,
) -> Counted
    requires words_len { length words.old ≡ word_count }
    requires starts_len { length starts.old ≡ 64 }
    requires sound_words { SoundWords words.old }
    ensures { DoesWords (λ s. calls.carve s process start end) words.old words.new (with_starts result starts.new) }
{
    put_zeros(starts);
    carve_into(words, starts, process, start, end)
}
