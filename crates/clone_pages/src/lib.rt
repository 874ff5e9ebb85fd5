// A region's backed pages: how many there are, by entries and by its range.
#![tactic(auto)]

ghost use Rattle.std.specs.Prelude.{◌≡◌, cond, ◌+◌, ◌/◌, ◌<◌, ◌≤◌, length, eqb};
ghost use Rattle.model.specs.Layout.{word_count, machine};
ghost use Rattle.model.specs.Machine.{region_at};
ghost use Rattle.model.specs.Lookup.{is_found};
ghost use Rattle.model.specs.Backing.{entry_for};
ghost use Rattle.model.specs.Clone.{single_pages, range_pages};
ghost use Rattle.laws.specs.Lists.{keep};
ghost use Rattle.clone_pages.specs.BackedPages.{range_len, bare_one, bare_in, frames_from};

use address::Page;
use lookup::backed::backing_from;
use lookup::search::entry_for;
use model::{ENTRIES, Entry, Region, SLOTS};
use regions::slot::region_in;
use rows::pages::entry_at;

// What an entry counts where those of an owner are counted.
fn one_if_owned(e: Entry, owner: u64) -> usize
    ensures value { result ≡ cond (eqb e.owner owner) 1 0 }
    ensures upper_bound { result ≤ 1 }
{
    if e.owner == owner {
        return 1;
    }
    0
}

// How many page entries the region in a row has.
pub fn single_count(words: &[u64], row: u64) -> usize
    requires words_len { length words.now ≡ word_count }
    requires row_bound { row < 512 }
    ensures value { result ≡ length (single_pages (machine words.now).entries row) }
    ensures upper_bound { result ≤ 512 }
{
    let mut n = 0;
    for i in 0..ENTRIES {
        let e = entry_at(words, i);
        n += one_if_owned(e, row + 1);
    }
    n
}

// Whether a page of the region in a row has an entry.
pub fn is_shadowed(words: &[u64], row: u64, page: Page) -> bool
    requires words_len { length words.now ≡ word_count }
    requires row_bound { row < 512 }
    ensures { result ≡ is_found (entry_for (machine words.now) row page.0) }
{
    entry_for(words, row, page).is_some()
}

// What a page of a range counts where those with no entry are counted.
fn one_if_bare(words: &[u64], row: u64, page: Page) -> usize
    requires words_len { length words.now ≡ word_count }
    requires row_bound { row < 512 }
    ensures value { result ≡ bare_one (machine words.now) row page.0 }
    ensures upper_bound { result ≤ 1 }
{
    if is_shadowed(words, row, page) {
        return 0;
    }
    1
}

// How many frames a region's range has.
pub fn range_len(words: &[u64], region: Region) -> u64
    requires { length words.now ≡ word_count }
    ensures { result ≡ range_len (machine words.now) region }
{
    if region.ranged != 1 {
        return 0;
    }
    backing_from(words, region.range).len
}

// A page of a region's range.
pub fn nth_page(region: Region, i: u64) -> Page
    requires { i < 256 }
    ensures { result.0 ≡ region.start.0 / 4096 + i }
{
    let first = Page::containing_address(region.start);
    Page(first.0 + i)
}

// How many of the first `len` pages of a region, which is in a row, have no entry.
fn bare_count(words: &[u64], row: u64, region: Region, len: u64) -> usize
    requires words_len { length words.now ≡ word_count }
    requires row_bound { row < 512 }
    requires len_bound { len ≤ 256 }
    ensures value { result ≡ length (keep (bare_in (machine words.now) row) (frames_from region 0 len)) }
    ensures upper_bound { result ≤ 256 }
{
    let mut n = 0;
    for i in 0..len {
        n += one_if_bare(words, row, nth_page(region, i));
    }
    n
}

// How many pages of a region's range have no entry.
pub fn range_count(words: &[u64], process: usize, slot: usize) -> usize
    requires words_len { length words.now ≡ word_count }
    requires process_bound { process < 8 }
    requires slot_bound { slot < 64 }
    requires slot_bound_2 { range_len (machine words.now) (region_at (machine words.now) process slot) ≤ 256 }
    ensures value { result ≡ length (range_pages (machine words.now) process slot) }
    ensures upper_bound { result ≤ 256 }
{
    let region = region_in(words, process, slot);
    let len = range_len(words, region);
    bare_count(words, (process * SLOTS + slot) as u64, region, len)
}
