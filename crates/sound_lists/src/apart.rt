// R1: attached and detached regions of a process have disjoint segments. Where they rise from slot to slot, one pass tells; else
// every two are compared.
ghost use Rattle.std.specs.Prelude.{◌≡◌, true, ◌+◌, ◌*◌, ◌<◌, length, get_or, drop, leb};
ghost use Rattle.model.specs.Layout.{word_count, machine};
ghost use Rattle.laws.specs.Lists.{all};
ghost use Rattle.model.specs.Machine.{no_region};
ghost use Rattle.model.specs.Lookup.{pages_for, regions_of, is_used};
ghost use Rattle.laws.specs.Tests.{all_pairs};
ghost use Rattle.model.specs.SoundTest.{apartb, r1b};
ghost use Rattle.laws.specs.Tests.{later};

use address::PAGE_SIZE;
use model::{FREE, PROCESSES, Region, SLOTS};
use rows::sizes::pages_for;
use rows::slots::region_at;

// Whether a segment ends at an address or before it. Its end is not computed: on damaged words it may not fit.
pub fn ends_by(start: u64, size: u64, addr: u64) -> bool
    ensures { result ≡ leb (start + pages_for size * 4096) addr }
{
    if start <= addr {
        return pages_for(size) <= (addr - start) / PAGE_SIZE;
    }
    false
}

// Whether a slot is free or its segment has no byte in common with a region's.
fn is_apart(region: Region, other: Region) -> bool
    ensures { result ≡ apartb region other }
{
    if other.kind == FREE {
        return true;
    }
    if ends_by(region.start.0, region.size, other.start.0) {
        return true;
    }
    ends_by(other.start.0, other.size, region.start.0)
}

// Whether a region is apart from all slots after its own.
fn is_apart_from_later(words: &[u64], process: usize, slot: usize, region: Region) -> bool
    requires words_len { length words.now ≡ word_count }
    requires process_bound { process < 8 }
    requires slot_bound { slot < 64 }
    ensures { result ≡ all (apartb region) (drop (slot + 1) (regions_of (machine words.now) process)) }
{
    (slot + 1..SLOTS).all(|next| is_apart(region, region_at(words, process * SLOTS + next)))
}

// Whether a slot is free or its region apart from all slots after it.
fn slot_is_apart(words: &[u64], process: usize, slot: usize) -> bool
    requires words_len { length words.now ≡ word_count }
    requires process_bound { process < 8 }
    requires slot_bound { slot < 64 }
    ensures { result ≡ later is_used apartb (regions_of (machine words.now) process) slot (get_or (regions_of (machine words.now) process) slot no_region) }
{
    let region = region_at(words, process * SLOTS + slot);
    if region.kind == FREE {
        return true;
    }
    is_apart_from_later(words, process, slot, region)
}

// Whether every two regions of a process have disjoint segments, by comparing every two.
fn pairs_are_apart(words: &[u64], process: usize) -> bool
    requires words_len { length words.now ≡ word_count }
    requires process_bound { process < 8 }
    ensures { result ≡ all_pairs is_used apartb (regions_of (machine words.now) process) }
{
    (0..SLOTS).all(|i| slot_is_apart(words, process, i))
}

// Whether the segments of a process's regions rise from slot to slot: then every two are disjoint.
fn segments_rise(words: &[u64], process: usize) -> bool
    requires words_len { length words.now ≡ word_count }
    requires process_bound { process < 8 }
    ensures { result ≡ true → all_pairs is_used apartb (regions_of (machine words.now) process) ≡ true }
{
    let mut start = 0;
    let mut size = 0;
    for i in 0..SLOTS {
        let region = region_at(words, process * SLOTS + i);
        if region.kind == FREE {
            continue;
        }
        if !ends_by(start, size, region.start.0) {
            return false;
        }
        start = region.start.0;
        size = region.size;
    }
    true
}

// Whether every two regions of a process have disjoint segments.
fn process_is_disjoint(words: &[u64], process: usize) -> bool
    requires words_len { length words.now ≡ word_count }
    requires process_bound { process < 8 }
    ensures { result ≡ all_pairs is_used apartb (regions_of (machine words.now) process) }
{
    if segments_rise(words, process) {
        return true;
    }
    pairs_are_apart(words, process)
}

// R1 of every process.
pub fn disjoint(words: &[u64]) -> bool
    requires { length words.now ≡ word_count }
    ensures { result ≡ r1b (machine words.now) }
{
    (0..PROCESSES).all(|i| process_is_disjoint(words, i))
}
