// Whether a process's attached regions cover a range: what they hold of it is added up, with no copy of their spans.
ghost use Rattle.std.specs.Prelude.{◌≡◌, ◌<◌, length};
ghost use Rattle.model.specs.Layout.{word_count, machine};
ghost use Rattle.model.specs.Machine.{region_at};
ghost use Rattle.model.specs.Lookup.{covered};
ghost use Rattle.rows.specs.LentMemory.{SoundWords};
ghost use Rattle.regions.specs.Cover.{end_within, start_within, shared_len};

use lookup::attached::attached_count;
use model::{REGIONS, Region, SLOTS};
use rows::slots::{order_at, region_at};

// The end of a region, or the range's end where that is lower: the region's may be no u64.
fn end_within(region: Region, end: u64) -> u64
    ensures { result ≡ end_within region end }
{
    region.start.0.saturating_add(region.size).min(end)
}

// The start of a region, or the range's start where that is higher.
fn start_within(region: Region, start: u64) -> u64
    ensures { result ≡ start_within region start }
{
    region.start.0.max(start)
}

// How many addresses from start up to end lie in a region.
fn shared_len(region: Region, start: u64, end: u64) -> u64
    ensures { result ≡ shared_len region start end }
{
    end_within(region, end).saturating_sub(start_within(region, start))
}

// How many addresses from start up to end lie in the region in a process's slot; past the last row there is none. Its row is read
// here, so that of its words only start and size are loaded.
fn slot_len(words: &[u64], process: usize, slot: usize, start: u64, end: u64) -> u64
    requires words_len { length words.now ≡ word_count }
    requires process_bound { process < 8 }
    ensures { result ≡ shared_len (region_at (machine words.now) process slot) start end }
{
    if slot < REGIONS - process * SLOTS {
        let region = region_at(words, process * SLOTS + slot);
        return shared_len(region, start, end);
    }
    0
}

// Whether every address from start up to end lies in an attached region. The regions of a sound machine are apart, so each
// address that is held is held by one of them.
pub fn covers(words: &[u64], process: usize, start: u64, end: u64) -> bool
    requires words_len { length words.now ≡ word_count }
    requires process_bound { process < 8 }
    ensures { SoundWords words.now → result ≡ covered (machine words.now) process start end }
{
    if end <= start {
        return true;
    }
    let n = attached_count(words, process);
    let mut left = end - start;
    for i in 0..n {
        let slot = order_at(words, process * SLOTS + i);
        left = left.saturating_sub(slot_len(words, process, slot as usize, start, end));
    }
    left == 0
}
