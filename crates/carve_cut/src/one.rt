// One region that a range cuts: split, unless it is refused.
ghost use Rattle.std.specs.Prelude.{◌≡◌, ◌<◌, length, Ok};
ghost use Rattle.model.specs.Layout.{word_count, machine};
ghost use Rattle.model.specs.Answers.{first_of};
ghost use Rattle.model.specs.Carve.{split_refusals};
ghost use Rattle.split.specs.SplitBound.{Bounded};
ghost use Rattle.carve_cut.specs.CarvedOne.{carved_one};

use crate::refusal::split_refusal;
use answers::Refusal;
use split::bounds::split_at_bounds;

// Splits the region in a slot at the bounds of a range, unless it is refused; then nothing changes.
pub fn carve_one(
    words: &mut [u64],
    process: usize,
    slot: usize,
    start: u64,
    end: u64,
) -> Result<(), Refusal>
    requires words_len { length words.old ≡ word_count }
    requires process_bound { process < 8 }
    requires slot_bound { slot < 64 }
    requires bounded { Ok tt ≡ first_of (split_refusals (machine words.old) process slot start end) → Bounded (machine words.old) process slot start end }
    ensures value { result ≡ first_of (split_refusals (machine words.old) process slot start end) }
    ensures words_after { machine words.new ≡ carved_one result (machine words.old) process slot start end }
{
    split_refusal(&words[..], process, slot, start, end)?;
    split_at_bounds(words, process, slot, start, end);
    Ok(())
}
