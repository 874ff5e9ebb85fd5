// The core of process cloning, on a machine that has been tested sound: the source's regions in list order, until one is refused.
#![tactic(auto)]

ghost use Rattle.std.specs.Prelude.{◌≡◌, true, ◌<◌, length};
ghost use Rattle.model.specs.Layout.{word_count, machine};
ghost use Rattle.model.specs.Machine.{region_at};
ghost use Rattle.model.specs.Lookup.{is_open};
ghost use Rattle.model.specs.Clone.{core_clone};
ghost use Rattle.model.specs.Sound.{Used};
ghost use Rattle.model.specs.Calls.{clone};
ghost use Rattle.rows.specs.LentMemory.{SoundFrames, Does};
ghost use Rattle.clone_process.specs.CloneEach.{clone_slot};

use answers::Refusal;
use clone_region::clone_into;
use lookup::attached::attached_count;
use lookup::search::is_open;
use model::SLOTS;
use regions::slot::region_in;
use rows::slots::order_at;

// Clones the region in a slot into a process, unless it is per-thread.
fn clone_slot(
    words: &mut [u64],
    frames: &mut [u8],
    process: usize,
    slot: usize,
    target: usize,
) -> Result<(), Refusal>
    requires words_len { length words.old ≡ word_count }
    requires sound_frames { SoundFrames words.old frames.old }
    requires process_bound { process < 8 }
    requires slot_bound { slot < 64 }
    requires target_bound { target < 8 }
    requires used { Used (region_at (machine words.old) process slot) }
    ensures { Does (λ s. clone_slot s process slot target) words.old frames.old words.new frames.new result }
{
    let region = region_in(&words[..], process, slot);
    if region.per_thread != 0 {
        return Ok(());
    }
    clone_into(words, frames, process, slot, target)
}

// Clones a process's regions into another, in list order: the Rust's MemoryRegions::clone_into. A clone leaves the source's list as it
// was but for its end, so it is read where it stands.
fn clone_regions(
    words: &mut [u64],
    frames: &mut [u8],
    process: usize,
    target: usize,
) -> Result<(), Refusal>
    requires words_len { length words.old ≡ word_count }
    requires sound_frames { SoundFrames words.old frames.old }
    requires process_bound { process < 8 }
    requires target_bound { target < 8 }
    requires target_value { is_open (machine words.old) target ≡ true }
    ensures { Does (λ s. core_clone s process target) words.old frames.old words.new frames.new result }
{
    let count = attached_count(&words[..], process);
    for i in 0..count {
        let slot = order_at(&words[..], process * SLOTS + i) as usize;
        clone_slot(words, frames, process, slot, target)?;
    }
    Ok(())
}

// Clones a process's regions into another: the core of the call.
pub fn clone_core(
    words: &mut [u64],
    frames: &mut [u8],
    process: u64,
    target: u64,
) -> Result<(), Refusal>
    requires words_len { length words.old ≡ word_count }
    requires sound_frames { SoundFrames words.old frames.old }
    ensures { Does (λ s. clone s process target) words.old frames.old words.new frames.new result }
{
    if !is_open(&words[..], process) {
        return Err(Refusal::NoProcess);
    }
    if !is_open(&words[..], target) {
        return Err(Refusal::NoProcess);
    }
    clone_regions(words, frames, process as usize, target as usize)
}
