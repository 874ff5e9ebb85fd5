// Eager populate: every Private CopyEager region of a process populated by the access that it grants, in list order. The Rust's
// populate_eager_copies.
#![tactic(auto)]

ghost use Rattle.std.specs.Prelude.{◌≡◌, true, ◌+◌, ◌*◌, ◌<◌, length, get_or};
ghost use Rattle.model.specs.Layout.{word_count, machine};
ghost use Rattle.model.specs.SoundTest.{soundb};
ghost use Rattle.model.specs.Populate.{eager_region, eagerly, core_populate_eager_copies};
ghost use Rattle.model.specs.Calls.{eager};
ghost use Rattle.rows.specs.LentMemory.{state_of, DoesWith};

use address::{Page, VirtAddr};
use answers::Refusal;
use lookup::attached::attached_count;
use lookup::named::process_refusal;
use model::{COPY_EAGER, PRIVATE, Region, SLOTS};
use populate::visit;
use regions::slot::region_in;
use rows::slots::order_at;

// Whether a region is Private, copied eagerly and open to the process.
fn is_eager(region: Region) -> bool
    ensures { result ≡ eager_region region }
{
    if region.kind != PRIVATE {
        return false;
    }
    if region.fork != COPY_EAGER {
        return false;
    }
    region.flags.is_user_accessible()
}

// Populates the region in a slot, if it is one to visit: for writing where it is writable, else for reading. Of a sound machine.
fn eager_slot(
    words: &mut [u64],
    frames: &mut [u8],
    files: &[u8],
    process: usize,
    slot: usize,
) -> Result<(), Refusal>
    requires words_len { length words.old ≡ word_count }
    requires files_value { soundb (state_of words.old frames.old files.now) ≡ true }
    requires process_bound { process < 8 }
    ensures { DoesWith (λ s. eagerly s process slot) words.old frames.old files.now words.new frames.new result }
{
    let region = region_in(&words[..], process, slot);
    if !is_eager(region) {
        return Ok(());
    }
    let first = Page::containing_address(region.start);
    let last = Page::containing_address(VirtAddr(region.start.0 + (region.size - 1)));
    let write = region.flags.is_writable();
    visit(words, frames, files, process, first, last, write)
}

// The slot of the region at a place of a process's list.
fn listed_slot(words: &[u64], process: usize, place: usize) -> usize
    requires words_len { length words.now ≡ word_count }
    requires process_bound { process < 8 }
    requires place_bound { place < 64 }
    ensures { result ≡ get_or (machine words.now).order (process * 64 + place) 0 }
{
    order_at(words, process * SLOTS + place) as usize
}

// Populates every region that is copied eagerly, in list order, of a sound machine.
fn populate_eager_copies(
    words: &mut [u64],
    frames: &mut [u8],
    files: &[u8],
    process: usize,
) -> Result<(), Refusal>
    requires words_len { length words.old ≡ word_count }
    requires files_value { soundb (state_of words.old frames.old files.now) ≡ true }
    requires process_bound { process < 8 }
    ensures { DoesWith (λ s. core_populate_eager_copies s process) words.old frames.old files.now words.new frames.new result }
{
    let count = attached_count(&words[..], process);
    for i in 0..count {
        let slot = listed_slot(&words[..], process, i);
        eager_slot(words, frames, files, process, slot)?;
    }
    Ok(())
}

// Eager populate: the core of the call, of a sound machine.
pub fn eager_core(
    words: &mut [u64],
    frames: &mut [u8],
    files: &[u8],
    process: u64,
) -> Result<(), Refusal>
    requires words_len { length words.old ≡ word_count }
    requires files_value { soundb (state_of words.old frames.old files.now) ≡ true }
    ensures { DoesWith (λ s. eager s process) words.old frames.old files.now words.new frames.new result }
{
    process_refusal(&words[..], process)?;
    populate_eager_copies(words, frames, files, process as usize)
}
