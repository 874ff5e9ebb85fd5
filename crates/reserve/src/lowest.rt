// The lowest free start of a process's arena, and the spot of a new segment.
ghost use Rattle.std.specs.Prelude.{◌≡◌, ◌<◌, length};
ghost use Rattle.model.specs.Layout.{word_count, machine};
ghost use Rattle.segment_search.specs.Search.{search};
ghost use Rattle.model.specs.Segments.{segments_of, found_start, lowest_start};
ghost use Rattle.model.specs.Create.{spot};
ghost use Rattle.reserve.specs.LowestSpot.{ProcessesFit, found_spot};

use crate::taken::{first_over, reserved};
use address::{PAGE_SIZE, VirtAddr};
use model::{Place, SLOTS};
use rows::processes::process_at;
use rows::sizes::pages_for;
use rows::slots::region_at;

// The lowest start from one on with `len` bytes free up to `last`. It starts over just past the region in its way; the number of
// regions still ahead falls each time. Which of several is met first does not matter, so slots are looked through as they stand.
// A loop: a function that calls itself with a slice keeps a frame for each restart.
fn lowest_from(words: &[u64], process: usize, last: u64, len: u64, from: u64) -> Option<VirtAddr>
    requires words_len { length words.now ≡ word_count }
    requires process_bound { process < 8 }
    requires len_nonzero { 0 < len }
    ensures { found_spot result ≡ found_start (search (segments_of (machine words.now) process) last len from 0) }
{
    let mut start = from;
    while start <= last {
        if last - start < len - 1 {
            return None;
        }
        let Some(slot) = first_over(words, process, start, len) else {
            return Some(VirtAddr(start));
        };
        let region = region_at(words, process * SLOTS + slot);
        let pages = pages_for(region.size);
        if (last - region.start.0) / PAGE_SIZE < pages {
            return None;
        }
        start = region.start.0 + pages * PAGE_SIZE;
    }
    None
}

// The lowest start with `len` bytes free in a process's arena. An arena that ends past all addresses is damaged: nothing is free.
pub fn lowest_start(words: &[u64], process: usize, len: u64) -> Option<VirtAddr>
    requires words_len { length words.now ≡ word_count }
    requires process_bound { process < 8 }
    ensures { ProcessesFit (machine words.now) → found_spot result ≡ lowest_start (machine words.now) process len }
{
    let arena = process_at(words, process);
    if len == 0 {
        return None;
    }
    if arena.size < len {
        return None;
    }
    let last = arena.start.0.checked_add(arena.size - 1)?;
    lowest_from(words, process, last, len, arena.start.0)
}

// Where a segment of `len` bytes goes: the given start if nothing is reserved there, or the lowest free one.
pub fn spot(words: &[u64], process: usize, place: Place, len: u64) -> Option<VirtAddr>
    requires words_len { length words.now ≡ word_count }
    requires process_bound { process < 8 }
    ensures { ProcessesFit (machine words.now) → found_spot result ≡ spot (machine words.now) process place len }
{
    let Place::At(start) = place else {
        return lowest_start(words, process, len);
    };
    if reserved(words, process, start.0, len) {
        return None;
    }
    Some(start)
}
