// The page entries' rows: a free one is all zeros, any other starts in its region and has one frame.
ghost use Rattle.std.specs.Prelude.{◌≡◌, ◌<◌, length};
ghost use Rattle.model.specs.Layout.{word_count, machine};
ghost use Rattle.model.specs.Lookup.{contains};
ghost use Rattle.model.specs.Paging.{page_start};
ghost use Rattle.laws.specs.Tests.{all_rows};
ghost use Rattle.model.specs.SoundTest.{free_entry_row, enteredb, entry_fits};
ghost use Rattle.sound_rows.specs.EntryRow.{takes_entry};

use address::{PAGE_COUNT, PAGE_SIZE, Page};
use lookup::attached::region_contains;
use lookup::backed::backing_from;
use model::{ENTRIES, Entry, FREE, REGIONS, Region, SHARED};
use rows::pages::entry_at;
use rows::sizes::pages_for;
use rows::slots::region_at;

// Whether every page entry's row fits.
pub fn entries_fit(words: &[u64]) -> bool
    requires { length words.now ≡ word_count }
    ensures { result ≡ all_rows (λ i e. entry_fits (machine words.now) e) 0 (machine words.now).entries }
{
    for i in 0..ENTRIES {
        let row = entry_at(words, i);
        if !entry_fits(words, row) {
            return false;
        }
    }
    true
}

// Whether a row is all zeros, or an entry of its owner.
fn entry_fits(words: &[u64], entry: Entry) -> bool
    requires { length words.now ≡ word_count }
    ensures { result ≡ entry_fits (machine words.now) entry }
{
    if entry.owner == 0 {
        return is_free_entry(entry);
    }
    if (REGIONS as u64) < entry.owner {
        return false;
    }
    entered(words, entry)
}

// Whether a row's words are all 0.
fn is_free_entry(entry: Entry) -> bool
    ensures { result ≡ free_entry_row entry }
{
    entry.owner | entry.page.0 | entry.frame.0 == 0
}

// Whether an owned entry's page starts in its region, and its backing is one frame.
fn entered(words: &[u64], entry: Entry) -> bool
    requires words_len { length words.now ≡ word_count }
    requires owner_nonzero { 0 < entry.owner }
    requires owner_bound { entry.owner < 513 }
    ensures { result ≡ enteredb (machine words.now) entry }
{
    let region = region_at(words, entry.owner as usize - 1);
    if !takes_entry(region, entry.page) {
        return false;
    }
    let backing = backing_from(words, entry.frame);
    backing.len == 1
}

// Whether a region may have an entry of a page: it is in use, not Shared, and the page starts in it.
fn takes_entry(region: Region, page: Page) -> bool
    ensures { result ≡ takes_entry region page.0 }
{
    if region.kind == FREE {
        return false;
    }
    if region.kind == SHARED {
        return false;
    }
    starts_in(region, page)
}

// Whether a page starts in a region.
fn starts_in(region: Region, page: Page) -> bool
    ensures { result ≡ contains region (page_start page.0) }
{
    if page.0 < PAGE_COUNT {
        return region_contains(region, page.start_address());
    }
    starts_far(region, page)
}

// Whether a page starts in a region, counted in pages from the first page start in the region on, since bytes may be too many.
fn starts_far(region: Region, page: Page) -> bool
    ensures { result ≡ contains region (page_start page.0) }
{
    let first = pages_for(region.start.0);
    if page.0 < first {
        return false;
    }
    let skipped = (PAGE_SIZE - region.start.page_offset()) % PAGE_SIZE;
    if region.size <= skipped {
        return false;
    }
    let pages = pages_for(region.size - skipped);
    page.0 - first < pages
}
