// Look-ups through the tables: open and closed processes, free slots and page entries, lowest first, and the entry of a region's page.
ghost use Rattle.std.specs.Prelude.{◌≡◌, cond, ◌<◌, ◌≤◌, length, eqb};
ghost use Rattle.model.specs.Layout.{word_count, machine};
ghost use Rattle.model.specs.Lookup.{is_open, free_slot, free_slots, free_entry, free_entries};
ghost use Rattle.model.specs.Backing.{entry_for};
ghost use Rattle.model.specs.Refusals.{closed_row};
ghost use Rattle.lookup.specs.Lookups.{entry_of};

use address::Page;
use model::{ENTRIES, Entry, FREE, PROCESSES, SLOTS};
use rows::pages::entry_at;
use rows::processes::process_at;
use rows::slots::region_at;

// Whether there is an open process of this number.
pub fn is_open(words: &[u64], process: u64) -> bool
    requires { length words.now ≡ word_count }
    ensures { result ≡ is_open (machine words.now) process }
{
    process < PROCESSES as u64 && process_at(words, process as usize).opened == 1
}

// The lowest process that is not open.
pub fn closed_process(words: &[u64]) -> Option<usize>
    requires { length words.now ≡ word_count }
    ensures { result ≡ closed_row (machine words.now) }
{
    for i in 0..PROCESSES {
        let p = process_at(words, i);
        if p.opened == 0 {
            return Some(i);
        }
    }
    None
}

// The lowest free slot of a process.
pub fn free_slot(words: &[u64], process: usize) -> Option<usize>
    requires words_len { length words.now ≡ word_count }
    requires process_bound { process < 8 }
    ensures { result ≡ free_slot (machine words.now) process }
{
    for i in 0..SLOTS {
        let r = region_at(words, process * SLOTS + i);
        if r.kind == FREE {
            return Some(i);
        }
    }
    None
}

// How many slots of a process are free.
pub fn free_slots(words: &[u64], process: usize) -> usize
    requires words_len { length words.now ≡ word_count }
    requires process_bound { process < 8 }
    ensures { result ≡ free_slots (machine words.now) process }
{
    let mut n = 0;
    for i in 0..SLOTS {
        let r = region_at(words, process * SLOTS + i);
        n += one_if_zero(r.kind);
    }
    n
}

// The lowest free page entry.
pub fn free_entry(words: &[u64]) -> Option<usize>
    requires { length words.now ≡ word_count }
    ensures { result ≡ free_entry (machine words.now) }
{
    for i in 0..ENTRIES {
        let e = entry_at(words, i);
        if e.owner == 0 {
            return Some(i);
        }
    }
    None
}

// How many page entries are free.
pub fn free_entries(words: &[u64]) -> usize
    requires { length words.now ≡ word_count }
    ensures { result ≡ free_entries (machine words.now) }
{
    let mut n = 0;
    for i in 0..ENTRIES {
        let e = entry_at(words, i);
        n += one_if_zero(e.owner);
    }
    n
}

// The page entry of a page of the region in a row.
pub fn entry_for(words: &[u64], row: u64, page: Page) -> Option<usize>
    requires words_len { length words.now ≡ word_count }
    requires row_bound { row < 512 }
    ensures { result ≡ entry_for (machine words.now) row page.0 }
{
    for i in 0..ENTRIES {
        let e = entry_at(words, i);
        if is_entry_of(e, row + 1, page) {
            return Some(i);
        }
    }
    None
}

// Whether a page entry is an owner's, of a page.
fn is_entry_of(e: Entry, owner: u64, page: Page) -> bool
    ensures { result ≡ entry_of owner page.0 e }
{
    e.owner == owner && e.page == page
}

// What a row counts where rows with 0 are counted.
fn one_if_zero(x: u64) -> usize
    ensures value { result ≡ cond (eqb x 0) 1 0 }
    ensures upper_bound { result ≤ 1 }
{
    if x == 0 { 1 } else { 0 }
}
