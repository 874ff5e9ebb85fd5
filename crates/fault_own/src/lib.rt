// A page of a region gets a frame of its own: the page is mapped to it, the frame claimed, the page's entry put. The Rust's map_and_fill.
#![tactic(auto)]

ghost use Rattle.std.specs.Prelude.{◌≡◌, true, ◌+◌, ◌*◌, ◌<◌, length};
ghost use Rattle.model.specs.Layout.{word_count, machine};
ghost use Rattle.model.specs.Lookup.{free_entry, is_found};
ghost use Rattle.model.specs.Backing.{entry_for, add_entry};
ghost use Rattle.paging.specs.Mapper.{map_by, unmap_by};
ghost use Rattle.fault_own.specs.Entered.{EntryReady, re_entry_by};
ghost use Rattle.fault_own.specs.Owned.{OwnFits, owned};

use address::{Page, PhysFrame};
use backing::holders::{claim, release};
use lookup::search::entry_for;
use model::{Entry, Mapping, SLOTS};
use paging::mapper::{map, unmap};
use regions::add::add_entry;
use regions::slot::region_in;
use rows::backings::pool;
use rows::pages::{entry_at, put_entry};

// Maps a page, whatever it was mapped to before.
fn map_anew(words: &mut [u64], process: usize, row: Mapping)
    requires words_len { length words.old ≡ word_count }
    requires process_bound { process < 8 }
    ensures { machine words.new ≡ map_by (unmap_by (machine words.old) process row.page.0) process row }
{
    unmap(words, process, row.page);
    map(words, process, row);
}

// The page entry of a page of the region in a row gets another frame, and its old backing is let go; where it has none, a new entry.
fn re_entry(words: &mut [u64], row: usize, page: Page, frame: PhysFrame)
    requires words_len { length words.old ≡ word_count }
    requires row_bound { row < 512 }
    requires entry_ready { EntryReady (machine words.old) (entry_for (machine words.old) row page.0) }
    ensures { machine words.new ≡ re_entry_by (machine words.old) row page.0 frame.0 (entry_for (machine words.old) row page.0) }
{
    let Some(i) = entry_for(&words[..], row as u64, page) else {
        add_entry(words, row, page, frame);
        return;
    };
    let old = entry_at(&words[..], i);
    release(words, old.frame);
    let owner = row as u64 + 1;
    put_entry(words, i, Entry { owner, page, frame });
}

// Gives a page of the region in a slot the next free frame, mapped with the region's flags, of a sound machine.
pub fn own_frame(words: &mut [u64], process: usize, slot: usize, page: Page)
    requires words_len { length words.old ≡ word_count }
    requires own_fits { OwnFits words.old process slot page.0 }
    ensures { machine words.new ≡ owned (machine words.old) process slot page.0 }
{
    let region = region_in(&words[..], process, slot);
    let free = pool(&words[..]);
    let frame = free.next;
    let flags = region.flags;
    map_anew(words, process, Mapping { page, frame, flags });
    claim(words, frame, 1);
    re_entry(words, process * SLOTS + slot, page, frame);
}
