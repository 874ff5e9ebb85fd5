// The refusals that calls give before their cores, in the order of their numbers.
ghost use Rattle.std.specs.Prelude.{◌≡◌, length};
ghost use Rattle.model.specs.Layout.{word_count};
ghost use Rattle.model.specs.Answers.{first_of};
ghost use Rattle.model.specs.Refusals.{process_refusals, region_refusals, slot_at};
ghost use Rattle.rows.specs.LentMemory.{words_alone};
ghost use Rattle.lookup.specs.Named.{named_by};

use crate::attached::region_for;
use crate::search::is_open;
use address::VirtAddr;
use answers::Refusal;

// Calls that name a process alone.
pub fn process_refusal(words: &[u64], process: u64) -> Result<(), Refusal>
    requires { length words.now ≡ word_count }
    ensures { result ≡ first_of (process_refusals (words_alone words.now) process) }
{
    if is_open(words, process) {
        return Ok(());
    }
    Err(Refusal::NoProcess)
}

// The region that a call names.
pub fn region_named(words: &[u64], process: u64, addr: VirtAddr) -> Result<usize, Refusal>
    requires { length words.now ≡ word_count }
    ensures { result ≡ named_by (first_of (region_refusals (words_alone words.now) process addr.0)) (slot_at (words_alone words.now) process addr.0) }
{
    if !is_open(words, process) {
        return Err(Refusal::NoProcess);
    }
    if !addr.is_user() {
        return Err(Refusal::BadAddress);
    }
    let Some(slot) = region_for(words, process as usize, addr) else {
        return Err(Refusal::NoRegion);
    };
    Ok(slot)
}
