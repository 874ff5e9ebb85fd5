// What a fault's way needs: its refusals in the order of their numbers.
#![tactic(auto)]

ghost use Rattle.std.specs.Prelude.{◌≡◌, ◌^◌, ◌<◌, length};
ghost use Rattle.model.specs.Layout.{word_count, machine};
ghost use Rattle.model.specs.Answers.{first_of};
ghost use Rattle.model.specs.Backing.{backing};
ghost use Rattle.model.specs.Fault.{no_room, no_entry_left, way_refusals};
ghost use Rattle.address.specs.declared.PhysFrame.{PhysFrame};
ghost use Rattle.model.specs.declared.Way.TheVariants as way;
ghost use Rattle.rows.specs.LentMemory.{SoundWords};
ghost use Rattle.fault_needs.specs.WayNeeds.{unmapped_full, entry_full};

use address::Page;
use answers::Refusal;
use fault_fill::read_fails;
use lookup::search::{entry_for, free_entry};
use model::{MAPPED_PAGES, SLOTS, Way};
use paging::search::translate;
use regions::slot::region_in;
use rows::backings::pool;
use rows::processes::process_at;

// Whether 128 pages of a process are mapped already.
fn no_room(words: &[u64], process: usize) -> bool
    requires words_len { length words.now ≡ word_count }
    requires process_bound { process < 8 }
    ensures { result ≡ no_room (machine words.now) process }
{
    let row = process_at(words, process);
    (MAPPED_PAGES as u64) <= row.mapped
}

// Whether a page is not mapped and there is no room for it, of a sound machine.
fn unmapped_full(words: &[u64], process: usize, page: Page) -> bool
    requires words_len { length words.now ≡ word_count }
    requires sound_words { SoundWords words.now }
    requires process_bound { process < 8 }
    ensures { result ≡ unmapped_full (machine words.now) process page.0 }
{
    if translate(words, process, page).is_some() {
        return false;
    }
    no_room(words, process)
}

// Whether no page entry is free.
fn no_entry_left(words: &[u64]) -> bool
    requires { length words.now ≡ word_count }
    ensures { result ≡ no_entry_left (machine words.now) }
{
    free_entry(words).is_none()
}

// Whether a copied page would need a new entry and none is free.
fn entry_full(words: &[u64], process: usize, slot: usize, page: Page) -> bool
    requires words_len { length words.now ≡ word_count }
    requires process_bound { process < 8 }
    requires slot_bound { slot < 64 }
    ensures { result ≡ entry_full (machine words.now) (backing (machine words.now) process slot page.0) }
{
    let Some(_) = entry_for(words, (process * SLOTS + slot) as u64, page) else {
        return no_entry_left(words);
    };
    false
}

// What a copy needs: a frame, room for the page if it is not mapped, an entry if it has none.
fn copy_refusal(words: &[u64], process: usize, slot: usize, page: Page) -> Result<(), Refusal>
    requires words_len { length words.now ≡ word_count }
    requires sound_words { SoundWords words.now }
    requires process_bound { process < 8 }
    requires slot_bound { slot < 64 }
    ensures { (f : PhysFrame) → result ≡ first_of (way_refusals (machine words.now) process slot page.0 (way.Copy f)) }
{
    let free = pool(words);
    if free.free == 0 {
        return Err(Refusal::OutOfMemory);
    }
    if unmapped_full(words, process, page) {
        return Err(Refusal::MapFailed);
    }
    if entry_full(words, process, slot, page) {
        return Err(Refusal::TableFull);
    }
    Ok(())
}

// What a new page needs: a frame, a file that can be read, room for the page, an entry.
fn fill_refusal(words: &[u64], process: usize, slot: usize, page: Page) -> Result<(), Refusal>
    requires words_len { length words.now ≡ word_count }
    requires process_bound { process < 8 }
    requires page_bound { page.0 < 2 ^ 52 }
    ensures { result ≡ first_of (way_refusals (machine words.now) process slot page.0 way.Fill) }
{
    let free = pool(words);
    if free.free == 0 {
        return Err(Refusal::OutOfMemory);
    }
    if read_fails(words, region_in(words, process, slot), page) {
        return Err(Refusal::ReadFailed);
    }
    if no_room(words, process) {
        return Err(Refusal::MapFailed);
    }
    if no_entry_left(words) {
        return Err(Refusal::TableFull);
    }
    Ok(())
}

// The refusals of a way, of a sound machine.
pub fn way_refusal(
    words: &[u64],
    process: usize,
    slot: usize,
    page: Page,
    way: Way,
) -> Result<(), Refusal>
    requires words_len { length words.now ≡ word_count }
    requires sound_words { SoundWords words.now }
    requires process_bound { process < 8 }
    requires slot_bound { slot < 64 }
    requires page_bound { page.0 < 2 ^ 52 }
    ensures { result ≡ first_of (way_refusals (machine words.now) process slot page.0 way) }
{
    match way {
        Way::Refuse(refusal) => Err(refusal),
        Way::Already => Ok(()),
        Way::Restore => Ok(()),
        Way::Map { .. } => {
            if no_room(words, process) {
                return Err(Refusal::MapFailed);
            }
            Ok(())
        }
        Way::Copy { .. } => copy_refusal(words, process, slot, page),
        Way::Fill => fill_refusal(words, process, slot, page),
    }
}
