// Why a region is not split: the Rust's check_split and try_unwrap.
ghost use Rattle.std.specs.Prelude.{◌≡◌, ◌&&◌, not, ◌<◌, ◌≤◌, length};
ghost use Rattle.model.specs.Layout.{word_count, machine};
ghost use Rattle.model.specs.Lookup.{is_ranged, is_shared};
ghost use Rattle.model.specs.Answers.{first_of};
ghost use Rattle.model.specs.Create.{one};
ghost use Rattle.model.specs.Carve.{slots_needed, split_refusals};

use answers::Refusal;
use lookup::search::free_slots;
use model::{Region, SHARED, SLOTS};
use rows::slots::region_at;
use split_parts::is_strictly_inside;

// What a test counts.
fn one_if(test: bool) -> usize
    ensures value { result ≡ one test }
    ensures upper_bound { result ≤ 1 }
{
    if test {
        return 1;
    }
    0
}

// How many slots the parts of a region need besides its own.
fn slots_needed(region: Region, start: u64, end: u64) -> usize
    ensures { result ≡ slots_needed region start end }
{
    let first = one_if(is_strictly_inside(region, start));
    if start == end {
        return first;
    }
    first + one_if(is_strictly_inside(region, end))
}

// Whether a region that is not Shared has a range.
fn is_eager(region: Region) -> bool
    ensures { result ≡ (is_ranged region && not (is_shared region)) }
{
    if region.ranged != 1 {
        return false;
    }
    region.kind != SHARED
}

// Why the region in a slot is not split at the bounds of a range, or that it is.
pub fn split_refusal(
    words: &[u64],
    process: usize,
    slot: usize,
    start: u64,
    end: u64,
) -> Result<(), Refusal>
    requires words_len { length words.now ≡ word_count }
    requires process_bound { process < 8 }
    requires slot_bound { slot < 64 }
    ensures { result ≡ first_of (split_refusals (machine words.now) process slot start end) }
{
    let region = region_at(words, process * SLOTS + slot);
    if is_eager(region) {
        return Err(Refusal::EagerBacking);
    }
    if region.kind == SHARED {
        return Err(Refusal::Shared);
    }
    if 0 < region.pins {
        return Err(Refusal::InUse);
    }
    if free_slots(words, process) < slots_needed(region, start, end) {
        return Err(Refusal::TableFull);
    }
    Ok(())
}
