// A region more in a process's list, and a page entry more of a region.
ghost use Rattle.std.specs.Prelude.{◌≡◌, true, ◌<◌, length};
ghost use Rattle.model.specs.Layout.{word_count, machine};
ghost use Rattle.model.specs.Machine.{process_at};
ghost use Rattle.model.specs.Lookup.{is_found, free_entry};
ghost use Rattle.model.specs.Backing.{add_entry};
ghost use Rattle.regions.specs.Added.{with_added};

use crate::counts::put_attached;
use address::{Page, PhysFrame};
use lookup::search::free_entry;
use model::{Entry, Region, SLOTS};
use rows::pages::put_entry;
use rows::processes::process_at;
use rows::slots::{put_order, put_region};

// Puts a region into a slot and the slot last in list order.
pub fn add_region(words: &mut [u64], process: usize, slot: usize, region: Region)
    requires words_len { length words.old ≡ word_count }
    requires process_bound { process < 8 }
    requires slot_bound { slot < 64 }
    requires process_bound_2 { (process_at (machine words.old) process).attached < 64 }
    ensures { machine words.new ≡ with_added (machine words.old) process slot region }
{
    let p = process_at(&words[..], process);
    put_region(words, process * SLOTS + slot, region);
    put_order(words, process * SLOTS + p.attached as usize, slot as u64);
    put_attached(words, process, p.attached + 1);
}

// Puts an entry of the region in a row into the lowest free one.
pub fn add_entry(words: &mut [u64], row: usize, page: Page, frame: PhysFrame)
    requires words_len { length words.old ≡ word_count }
    requires row_bound { row < 512 }
    requires words_value { is_found (free_entry (machine words.old)) ≡ true }
    ensures { machine words.new ≡ add_entry (machine words.old) row page.0 frame.0 }
{
    let Some(i) = free_entry(&words[..]) else {
        return;
    };
    let owner = row as u64 + 1;
    put_entry(words, i, Entry { owner, page, frame });
}
