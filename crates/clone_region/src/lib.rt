// The core of region cloning, on a machine that has been tested sound.
#![tactic(auto)]

ghost use Rattle.std.specs.Prelude.{◌≡◌, ◌≢◌, ◌&&◌, ◌<◌, ◌≤◌, length, ltb};
ghost use Rattle.model.specs.Layout.{word_count, machine};
ghost use Rattle.model.specs.Machine.{region_at};
ghost use Rattle.model.specs.Clone.{entries_needed, is_copied, core_clone_region};
ghost use Rattle.model.specs.Calls.{clone_region};
ghost use Rattle.rows.specs.LentMemory.{SoundWords, SoundFrames, Does};
ghost use Rattle.clone_pages.specs.BackedPages.{range_len};
ghost use Rattle.clone_region.specs.CloneWay.{clone_way};
ghost use Rattle.clone_region.specs.CloneCall.{clone_by};

use address::VirtAddr;
use answers::Refusal;
use clone_copy::copy_into;
use clone_pages::{range_count, single_count};
use clone_share::share_into;
use lookup::attached::region_for;
use lookup::search::{free_entries, free_slot, is_open};
use model::{COPY_EAGER, Region, SLOTS};
use regions::slot::region_in;
use reserve::taken::reserved;
use rows::backings::pool;
use rows::sizes::segment_len;

// How many entries a clone of the region in a slot needs.
fn entries_needed(words: &[u64], process: usize, slot: usize) -> usize
    requires words_len { length words.now ≡ word_count }
    requires process_bound { process < 8 }
    requires slot_bound { slot < 64 }
    requires slot_bound_2 { range_len (machine words.now) (region_at (machine words.now) process slot) ≤ 256 }
    ensures { result ≡ entries_needed (machine words.now) process slot }
{
    let region = region_in(words, process, slot);
    let singles = single_count(words, (process * SLOTS + slot) as u64);
    if region.fork != COPY_EAGER {
        return singles;
    }
    range_count(words, process, slot) + singles
}

// Whether a clone copies and has not frames enough.
fn lacks_frames(words: &[u64], region: Region, needed: usize) -> bool
    requires { length words.now ≡ word_count }
    ensures { result ≡ is_copied region && ltb (machine words.now).pool.free needed }
{
    if region.fork != COPY_EAGER {
        return false;
    }
    pool(words).free < needed as u64
}

// The free slot that a region's clone goes into, or why it is not cloned: what is reserved, then slots and entries, then frames.
fn clone_way(words: &[u64], process: usize, slot: usize, target: usize) -> Result<usize, Refusal>
    requires words_len { length words.now ≡ word_count }
    requires sound_words { SoundWords words.now }
    requires process_bound { process < 8 }
    requires slot_bound { slot < 64 }
    requires target_bound { target < 8 }
    ensures { result ≡ clone_way (machine words.now) process slot target }
{
    let region = region_in(words, process, slot);
    if reserved(words, target, region.start.0, segment_len(region.size)) {
        return Err(Refusal::SegmentReserved);
    }
    let free = free_slot(words, target).ok_or(Refusal::TableFull)?;
    let needed = entries_needed(words, process, slot);
    if free_entries(words) < needed {
        return Err(Refusal::TableFull);
    }
    if lacks_frames(words, region, needed) {
        return Err(Refusal::OutOfMemory);
    }
    Ok(free)
}

// Clones the region in a slot into a process: the Rust's MemoryRegion::clone_into.
pub fn clone_into(
    words: &mut [u64],
    frames: &mut [u8],
    process: usize,
    slot: usize,
    target: usize,
) -> Result<(), Refusal>
    requires words_len { length words.old ≡ word_count }
    requires sound_frames { SoundFrames words.old frames.old }
    requires process_bound { process < 8 }
    requires slot_bound { slot < 64 }
    requires target_bound { target < 8 }
    requires slot_nonzero { (region_at (machine words.old) process slot).kind ≢ 0 }
    ensures { Does (λ s. core_clone_region s process slot target) words.old frames.old words.new frames.new result }
{
    let region = region_in(&words[..], process, slot);
    let free = clone_way(&words[..], process, slot, target)?;
    if region.fork == COPY_EAGER {
        copy_into(words, frames, process, slot, target, free);
        return Ok(());
    }
    share_into(words, process, slot, target, free);
    Ok(())
}

// The slot of the region that is to be cloned, or why not: the refusals in the order of their numbers.
fn cloned_region(words: &[u64], process: u64, addr: VirtAddr, target: u64) -> Result<usize, Refusal>
    requires { length words.now ≡ word_count }
    ensures { result ≡ clone_by words.now process addr.0 target }
{
    if !is_open(words, process) {
        return Err(Refusal::NoProcess);
    }
    if !is_open(words, target) {
        return Err(Refusal::NoProcess);
    }
    if !addr.is_user() {
        return Err(Refusal::BadAddress);
    }
    region_for(words, process as usize, addr).ok_or(Refusal::NoRegion)
}

// Clones the region at an address into a process: the core of the call.
pub fn clone_region_core(
    words: &mut [u64],
    frames: &mut [u8],
    process: u64,
    addr: VirtAddr,
    target: u64,
) -> Result<(), Refusal>
    requires words_len { length words.old ≡ word_count }
    requires sound_frames { SoundFrames words.old frames.old }
    ensures { Does (λ s. clone_region s process addr.0 target) words.old frames.old words.new frames.new result }
{
    let slot = cloned_region(&words[..], process, addr, target)?;
    clone_into(words, frames, process as usize, slot, target as usize)
}
