// The cores of pin and unpin, on a machine that has been tested sound.
#![tactic(auto)]

ghost use Rattle.std.specs.Prelude.{◌≡◌, ◌<◌, length};
ghost use Rattle.model.specs.Layout.{word_count, machine};
ghost use Rattle.model.specs.Lookup.{is_attached};
ghost use Rattle.model.specs.Pins.{with_pins};
ghost use Rattle.model.specs.Calls as calls;
ghost use Rattle.rows.specs.LentMemory.{SoundWords, DoesWords};
ghost use Rattle.pins.specs.Unpins.{ends_by, Unpinned};

use address::VirtAddr;
use answers::Refusal;
use lookup::attached::{any_region_for, attached_count};
use lookup::named::region_named;
use lookup::search::is_open;
use model::{MOST_PINS, Region, SLOTS};
use regions::slot::region_in;
use remove::drop::drop_region;
use rows::slots::{order_at, put_region};

// A region's row with another number of pins.
fn with_pins(region: Region, pins: u64) -> Region
    ensures { result ≡ with_pins region pins }
{
    Region { pins, ..region }
}

// Pins the region at an address: the core of the call.
pub fn pin_core(words: &mut [u64], process: u64, addr: VirtAddr) -> Result<(), Refusal>
    requires words_len { length words.old ≡ word_count }
    requires sound_words { SoundWords words.old }
    ensures { DoesWords (λ s. calls.pin s process addr.0) words.old words.new result }
{
    let slot = region_named(&words[..], process, addr)?;
    let region = region_in(&words[..], process as usize, slot);
    if MOST_PINS <= region.pins {
        return Err(Refusal::TableFull);
    }
    let row = with_pins(region, region.pins + 1);
    put_region(words, process as usize * SLOTS + slot, row);
    Ok(())
}

// Whether a process's list names a slot.
pub fn is_attached(words: &[u64], process: usize, slot: usize) -> bool
    requires words_len { length words.now ≡ word_count }
    requires process_bound { process < 8 }
    ensures { result ≡ is_attached (machine words.now) process slot }
{
    let n = attached_count(words, process);
    for i in 0..n {
        let here = order_at(words, process * SLOTS + i);
        if slot as u64 == here {
            return true;
        }
    }
    false
}

// Whether an unpin ends a region: the last, of a detached one.
fn ends(words: &[u64], process: usize, slot: usize, pins: u64) -> bool
    requires words_len { length words.now ≡ word_count }
    requires process_bound { process < 8 }
    ensures { result ≡ ends_by (machine words.now) process slot pins }
{
    if pins != 1 {
        return false;
    }
    !is_attached(words, process, slot)
}

// Takes one pin off the region in a slot; the last unpin of a detached one ends it.
fn unpin_region(words: &mut [u64], process: usize, slot: usize)
    requires words_len { length words.old ≡ word_count }
    requires process_bound { process < 8 }
    requires slot_bound { slot < 64 }
    ensures { Unpinned (machine words.old) process slot (machine words.new) }
{
    let region = region_in(&words[..], process, slot);
    if ends(&words[..], process, slot, region.pins) {
        drop_region(words, process, slot);
        return;
    }
    let row = with_pins(region, region.pins.saturating_sub(1));
    put_region(words, process * SLOTS + slot, row);
}

// Unpins the region at an address, attached or detached: the core of the call.
pub fn unpin_core(words: &mut [u64], process: u64, addr: VirtAddr) -> Result<(), Refusal>
    requires { length words.old ≡ word_count }
    ensures { DoesWords (λ s. calls.unpin s process addr.0) words.old words.new result }
{
    if !is_open(&words[..], process) {
        return Err(Refusal::NoProcess);
    }
    if !addr.is_user() {
        return Err(Refusal::BadAddress);
    }
    let Some(slot) = any_region_for(&words[..], process as usize, addr) else {
        return Err(Refusal::NoRegion);
    };
    let region = region_in(&words[..], process as usize, slot);
    if region.pins == 0 {
        return Err(Refusal::NoRegion);
    }
    unpin_region(words, process as usize, slot);
    Ok(())
}
