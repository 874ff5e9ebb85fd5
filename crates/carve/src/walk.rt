// The regions that were taken out, one after the other: split, until one is refused.
ghost use Rattle.std.specs.Prelude.{◌≡◌, ◌<◌, ◌≤◌, length};
ghost use Rattle.model.specs.Layout.{word_count, machine};
ghost use Rattle.model.specs.Carve.{carve_each};
ghost use Rattle.carve.specs.PutBack.{slice};
ghost use Rattle.carve.specs.CarveWalk.{Ready};

use crate::back::put_back;
use answers::Refusal;
use carve_cut::one::carve_one;

// Splits the first regions of `out`, so many, and puts their parts last in the list; after the first refusal the rest go back whole.
pub fn carve_each(
    words: &mut [u64],
    out: &[u64],
    count: usize,
    process: usize,
    start: u64,
    end: u64,
) -> Result<(), Refusal>
    requires words_len { length words.old ≡ word_count }
    requires out_len { length out.now ≡ 64 }
    requires count_bound { count ≤ 64 }
    requires process_bound { process < 8 }
    requires ready { Ready process start end (machine words.old) (slice out.now 0 count) }
    ensures value { result ≡ (carve_each (slice out.now 0 count) (machine words.old) process start end).1 }
    ensures words_after { machine words.new ≡ (carve_each (slice out.now 0 count) (machine words.old) process start end).0 }
{
    for i in 0..count {
        if let Err(refusal) = carve_one(words, process, out[i] as usize, start, end) {
            put_back(words, out, i, count, process);
            return Err(refusal);
        }
    }
    Ok(())
}
