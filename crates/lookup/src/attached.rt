// A process's region at an address: the attached one, in list order, and any, in order of slots.
ghost use Rattle.std.specs.Prelude.{◌≡◌, ◌<◌, ◌≤◌, length};
ghost use Rattle.model.specs.Layout.{word_count, machine};
ghost use Rattle.model.specs.Machine.{region_at, order_of};
ghost use Rattle.model.specs.Lookup.{contains, region_for, any_region_for};
ghost use Rattle.lookup.specs.Attached.{used_at};

use address::VirtAddr;
use model::{FREE, REGIONS, Region, SLOTS};
use rows::processes::process_at;
use rows::slots::{order_at, region_at};

// How many regions of a process are attached.
pub fn attached_count(words: &[u64], process: usize) -> usize
    requires words_len { length words.now ≡ word_count }
    requires process_bound { process < 8 }
    ensures value { result ≡ length (order_of (machine words.now) process) }
    ensures upper_bound { result ≤ 64 }
{
    let p = process_at(words, process);
    p.attached.min(SLOTS as u64) as usize
}

// Whether a region holds an address.
pub fn region_contains(region: Region, addr: VirtAddr) -> bool
    ensures { result ≡ contains region addr.0 }
{
    region.start <= addr && addr.0 - region.start.0 < region.size
}

// Whether the region in a process's slot holds an address; past the last row there is none.
pub fn slot_contains(words: &[u64], process: usize, slot: usize, addr: VirtAddr) -> bool
    requires words_len { length words.now ≡ word_count }
    requires process_bound { process < 8 }
    ensures { result ≡ contains (region_at (machine words.now) process slot) addr.0 }
{
    if slot < REGIONS - process * SLOTS {
        let region = region_at(words, process * SLOTS + slot);
        return region_contains(region, addr);
    }
    false
}

// The attached region at an address: its slot.
pub fn region_for(words: &[u64], process: usize, addr: VirtAddr) -> Option<usize>
    requires words_len { length words.now ≡ word_count }
    requires process_bound { process < 8 }
    ensures { result ≡ region_for (machine words.now) process addr.0 }
{
    let n = attached_count(words, process);
    for i in 0..n {
        let slot = order_at(words, process * SLOTS + i) as usize;
        if slot_contains(words, process, slot, addr) {
            return Some(slot);
        }
    }
    None
}

// Whether a slot is in use by a region that holds an address.
fn is_used_at(region: Region, addr: VirtAddr) -> bool
    ensures { result ≡ used_at addr.0 region }
{
    region.kind != FREE && region_contains(region, addr)
}

// The region at an address, attached or detached: the lowest slot.
pub fn any_region_for(words: &[u64], process: usize, addr: VirtAddr) -> Option<usize>
    requires words_len { length words.now ≡ word_count }
    requires process_bound { process < 8 }
    ensures { result ≡ any_region_for (machine words.now) process addr.0 }
{
    for i in 0..SLOTS {
        let region = region_at(words, process * SLOTS + i);
        if is_used_at(region, addr) {
            return Some(i);
        }
    }
    None
}
