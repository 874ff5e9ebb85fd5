// What backs a page of a region, and a region's page entries in page order.
ghost use Rattle.std.specs.Prelude.{◌≡◌, ◌<◌, ◌≤◌, length};
ghost use Rattle.model.specs.Layout.{word_count, machine};
ghost use Rattle.model.specs.Machine.{region_at};
ghost use Rattle.model.specs.Lookup.{row_found};
ghost use Rattle.model.specs.Backing.{backing_at, entry_for, backing};
ghost use Rattle.lookup.specs.Backed.{by_entry, by_range, else_by, pages_past};
ghost use Rattle.lookup.specs.NextEntry.{comes_first, nearer, next_entry};

use crate::search::entry_for;
use address::{Page, PhysFrame};
use model::{Backed, Backing, ENTRIES, Entry, FRAMES, Region, SLOTS};
use rows::backings::backing_at;
use rows::pages::entry_at;
use rows::slots::region_at;

// What backs a page of the region in a slot: the page entry if any, else the range.
pub fn backing_of(words: &[u64], process: usize, slot: usize, page: Page) -> Backed
    requires words_len { length words.now ≡ word_count }
    requires process_bound { process < 8 }
    requires slot_bound { slot < 64 }
    requires slot_bound_2 { (backing_at (machine words.now) (region_at (machine words.now) process slot).range.0).len ≤ 256 }
    ensures { result ≡ backing (machine words.now) process slot page.0 }
{
    let row = process * SLOTS + slot;
    let entry = by_entry(words, row as u64, page);
    let range = by_range(words, region_at(words, row), page);
    else_by(entry, range)
}

// The first where it backs the page, else the second.
fn else_by(first: Backed, second: Backed) -> Backed
    ensures { result ≡ else_by first second }
{
    match first {
        Backed::ByEntry { .. } | Backed::ByRange { .. } => first,
        Backed::Unbacked => second,
    }
}

// What backs a page by the entry of a region in a row.
fn by_entry(words: &[u64], row: u64, page: Page) -> Backed
    requires words_len { length words.now ≡ word_count }
    requires row_bound { row < 512 }
    ensures { result ≡ by_entry (machine words.now) (entry_for (machine words.now) row page.0) }
{
    let Some(i) = entry_for(words, row, page) else {
        return Backed::Unbacked;
    };
    let frame = entry_at(words, i).frame;
    Backed::ByEntry {
        row: i,
        frame,
        count: backing_from(words, frame).holders,
    }
}

// What backs a page by a region's range.
fn by_range(words: &[u64], region: Region, page: Page) -> Backed
    requires words_len { length words.now ≡ word_count }
    requires range_bound { (backing_at (machine words.now) region.range.0).len ≤ 256 }
    ensures { result ≡ by_range (machine words.now) region page.0 }
{
    if region.ranged != 1 {
        return Backed::Unbacked;
    }
    let b = backing_from(words, region.range);
    let offset = pages_past(region, page);
    if b.len <= offset {
        return Backed::Unbacked;
    }
    Backed::ByRange {
        frame: PhysFrame(region.range.0 + offset),
        count: b.holders,
    }
}

// How many pages a page lies past a region's first; 0 below it.
pub fn pages_past(region: Region, page: Page) -> u64
    ensures { result ≡ pages_past region page.0 }
{
    page.pages_past(Page::containing_address(region.start))
}

// The backing that starts at a frame; past the last row there is none.
pub fn backing_from(words: &[u64], frame: PhysFrame) -> Backing
    requires { length words.now ≡ word_count }
    ensures { result ≡ backing_at (machine words.now) frame.0 }
{
    if frame.0 < FRAMES as u64 {
        return backing_at(words, frame.0 as usize);
    }
    Backing { len: 0, holders: 0 }
}

// Of the page entries of the region in a row, from a page on, the row of the one with the lowest page; of equal pages the lowest row.
pub fn next_entry(words: &[u64], row: u64, page: Page) -> Option<usize>
    requires words_len { length words.now ≡ word_count }
    requires row_bound { row < 512 }
    ensures { result ≡ next_entry (machine words.now).entries row page.0 }
{
    let mut found = None;
    // Downwards: of equal pages the lowest row is seen last, and taken.
    for i in (0..ENTRIES).rev() {
        found = nearer_row(words, row + 1, page, i, found);
    }
    found
}

// Row i where its entry comes first, else what was found after it.
fn nearer_row(
    words: &[u64],
    owner: u64,
    page: Page,
    i: usize,
    later: Option<usize>,
) -> Option<usize>
    requires words_len { length words.now ≡ word_count }
    requires i_bound { i < 512 }
    requires later_bound { row_found later < 512 }
    ensures { result ≡ nearer (machine words.now).entries owner page.0 i later }
{
    let e = entry_at(words, i);
    if comes_first(words, e, owner, page, later) {
        return Some(i);
    }
    later
}

// Whether an entry is an owner's, from a page on, and no later in page order than the one in the row found.
fn comes_first(words: &[u64], e: Entry, owner: u64, page: Page, later: Option<usize>) -> bool
    requires words_len { length words.now ≡ word_count }
    requires later_bound { row_found later < 512 }
    ensures { result ≡ comes_first (machine words.now).entries owner page.0 e later }
{
    // Two tests and no `||`: where two ways join, the proof has one sum of both in place of what was tested.
    if e.owner != owner {
        return false;
    }
    if e.page < page {
        return false;
    }
    let Some(j) = later else {
        return true;
    };
    e.page <= entry_at(words, j).page
}
