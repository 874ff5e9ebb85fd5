// A process's detached regions by start: slots in use that its list does not name.
ghost use Rattle.std.specs.Prelude.{◌≡◌, ◌<◌, length};
ghost use Rattle.model.specs.Layout.{word_count};

use lookup::attached::attached_count;
use model::{FREE, SLOTS};
use rows::slots::{order_at, region_at};

// The slot of the first detached region from a start on; of equal starts the lowest slot.
pub fn next_detached(words: &[u64], process: usize, start: u64) -> Option<usize>
    requires words_len { length words.now ≡ word_count }
    requires process_bound { process < 8 }
{
    (0..SLOTS)
        .filter_map(|slot| detached_from(words, process, slot, start))
        .min()
        .map(|(_, slot)| slot)
}

// The start of a slot's region and the slot, if the region is detached and begins at a start or behind it.
fn detached_from(words: &[u64], process: usize, slot: usize, start: u64) -> Option<(u64, usize)>
    requires words_len { length words.now ≡ word_count }
    requires process_bound { process < 8 }
    requires slot_bound { slot < 64 }
{
    let region = region_at(words, process * SLOTS + slot);
    if region.kind == FREE || region.start.0 < start || is_attached(words, process, slot) {
        return None;
    }
    Some((region.start.0, slot))
}

// Whether a process's list names a slot.
fn is_attached(words: &[u64], process: usize, slot: usize) -> bool
    requires words_len { length words.now ≡ word_count }
    requires process_bound { process < 8 }
{
    (0..attached_count(words, process)).any(|i| order_at(words, process * SLOTS + i) == slot as u64)
}
