// A region dropped: its page entries and its range let go, its entries and its slot free.
ghost use Rattle.std.specs.Prelude.{◌≡◌, ◌+◌, ◌*◌, ◌<◌, length};
ghost use Rattle.model.specs.Layout.{word_count, machine};
ghost use Rattle.model.specs.Machine.{no_entry};
ghost use Rattle.remove.specs.Dropped.{LetsGo, EntryGone, EntriesGone};
ghost use Rattle.remove.specs.SlotDropped.{RangeGone, SlotGone, Dropped};

use address::{Page, PhysFrame};
use backing::holders::release;
use model::{ENTRIES, Entry, FRAMES, Region, SLOTS};
use regions::slot::no_region;
use rows::pages::{entry_at, put_entry};
use rows::slots::{put_region, region_at};

// A free entry's row.
fn no_entry() -> Entry
    ensures { result ≡ no_entry }
{
    Entry {
        owner: 0,
        page: Page(0),
        frame: PhysFrame(0),
    }
}

// One holder less of the backing at a frame. Past the last row there is none.
fn let_go(words: &mut [u64], frame: PhysFrame)
    requires { length words.old ≡ word_count }
    ensures { LetsGo (machine words.old) frame.0 (machine words.new) }
{
    if frame.0 < FRAMES as u64 {
        release(words, frame);
        return;
    }
}

// Lets an entry go and frees it, where it is that of the region in a row.
fn drop_entry(words: &mut [u64], row: usize, i: usize)
    requires words_len { length words.old ≡ word_count }
    requires row_bound { row < 512 }
    requires i_bound { i < 512 }
    ensures { EntryGone (machine words.old) row i (machine words.new) }
{
    let e = entry_at(&words[..], i);
    if e.owner == row as u64 + 1 {
        let_go(words, e.frame);
        put_entry(words, i, no_entry());
        return;
    }
}

// Lets the entries of the region in a row go and frees them.
fn drop_entries(words: &mut [u64], row: usize)
    requires words_len { length words.old ≡ word_count }
    requires row_bound { row < 512 }
    ensures { EntriesGone (machine words.old) row (machine words.new) }
{
    for i in 0..ENTRIES {
        drop_entry(words, row, i);
    }
}

// Lets a region's range go, if it has one.
fn let_go_range(words: &mut [u64], region: Region)
    requires { length words.old ≡ word_count }
    ensures { RangeGone (machine words.old) region (machine words.new) }
{
    if region.ranged == 1 {
        let_go(words, region.range);
        return;
    }
}

// Lets the range of the region in a row go and frees its slot.
fn drop_slot(words: &mut [u64], row: usize)
    requires words_len { length words.old ≡ word_count }
    requires row_bound { row < 512 }
    ensures { SlotGone (machine words.old) row (machine words.new) }
{
    let region = region_at(&words[..], row);
    let_go_range(words, region);
    put_region(words, row, no_region());
}

// Drops the region in a process's slot: the Rust's drop of a MemoryRegion.
pub fn drop_region(words: &mut [u64], process: usize, slot: usize)
    requires words_len { length words.old ≡ word_count }
    requires process_bound { process < 8 }
    requires slot_bound { slot < 64 }
    ensures { Dropped (machine words.old) process slot (machine words.new) }
{
    drop_entries(words, process * SLOTS + slot);
    drop_slot(words, process * SLOTS + slot);
}
