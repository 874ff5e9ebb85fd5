// The regions of a process in the way of a new segment: exact on all words, for no sum is taken.
ghost use Rattle.std.specs.Prelude.{◌≡◌, ◌<◌, length};
ghost use Rattle.model.specs.Layout.{word_count, machine};
ghost use Rattle.model.specs.Lookup.{first_row, regions_of};
ghost use Rattle.model.specs.Segments.{reserved};
ghost use Rattle.reserve.specs.InTheWay.{over_used};

use address::PAGE_SIZE;
use model::{FREE, Region, SLOTS};
use rows::sizes::pages_for;
use rows::slots::region_at;

// Whether a slot is in use by a region whose segment has one of `len` bytes from `start` on.
fn is_over(region: Region, start: u64, len: u64) -> bool
    requires { 0 < len }
    ensures { result ≡ over_used start len region }
{
    if region.kind == FREE {
        return false;
    }
    if region.start.0 <= start {
        return (start - region.start.0) / PAGE_SIZE < pages_for(region.size);
    }
    region.size != 0 && region.start.0 - start < len
}

// The first slot of a process whose region has one of `len` bytes from `start` on.
pub fn first_over(words: &[u64], process: usize, start: u64, len: u64) -> Option<usize>
    requires words_len { length words.now ≡ word_count }
    requires process_bound { process < 8 }
    requires len_nonzero { 0 < len }
    ensures { result ≡ first_row (over_used start len) (regions_of (machine words.now) process) 0 }
{
    for i in 0..SLOTS {
        let region = region_at(words, process * SLOTS + i);
        if is_over(region, start, len) {
            return Some(i);
        }
    }
    None
}

// Whether a new segment overlaps one of a process's regions, attached or detached. An empty one overlaps nothing.
pub fn reserved(words: &[u64], process: usize, start: u64, len: u64) -> bool
    requires words_len { length words.now ≡ word_count }
    requires process_bound { process < 8 }
    ensures { result ≡ reserved (machine words.now) process start len }
{
    len != 0 && first_over(words, process, start, len).is_some()
}
