// The mapper of a process's page table: pages mapped, unmapped and remapped, and a region's pages unmapped.
ghost use Rattle.std.specs.Prelude.{◌≡◌, ◌<◌, ◌≤◌, length, ltb};
ghost use Rattle.model.specs.Layout.{word_count, machine};
ghost use Rattle.model.specs.Machine.{mapped_of};
ghost use Rattle.model.specs.Lookup.{is_found};
ghost use Rattle.paging.specs.Place.{row_for, translate_by};
ghost use Rattle.paging.specs.Mapper.{mapped_pages, inserted, taken_out, map_by, unmap_by, remap_by, unmap_from_by};

use crate::mappings::{clear, lower, put_count, put_row, raise};
use crate::search::{mapped_count, place, row_at, row_for};
use address::{Page, PageTableFlags};
use model::{MAPPED_PAGES, Mapping, Region};

// Puts a row at a place of the n in use.
fn insert(words: &mut [u64], process: usize, at: usize, n: usize, row: Mapping)
    requires words_len { length words.old ≡ word_count }
    requires process_bound { process < 8 }
    requires at_le_n { at ≤ n }
    requires n_bound { n < 128 }
    ensures { machine words.new ≡ inserted (machine words.old) process at n row }
{
    raise(words, process, at, n);
    put_row(words, process, at, row);
    put_count(words, process, n + 1);
}

// Takes out the rows from `from` up to `to` of the n in use.
fn take_out(words: &mut [u64], process: usize, from: usize, to: usize, n: usize)
    requires words_len { length words.old ≡ word_count }
    requires process_bound { process < 8 }
    requires from_le_to { from ≤ to }
    requires to_le_n { to ≤ n }
    requires n_bound { n ≤ 128 }
    ensures { machine words.new ≡ taken_out (machine words.old) process from to n }
{
    let left = n - (to - from);
    lower(words, process, from, to, n);
    clear(words, process, left, n);
    put_count(words, process, left);
}

// Maps a page; false, and nothing changes, where 128 are mapped already.
pub fn map(words: &mut [u64], process: usize, row: Mapping) -> bool
    requires words_len { length words.old ≡ word_count }
    requires process_bound { process < 8 }
    ensures value { result ≡ ltb (mapped_pages (machine words.old) process) 128 }
    ensures words_after { machine words.new ≡ map_by (machine words.old) process row }
{
    let n = mapped_count(&words[..], process);
    if n < MAPPED_PAGES {
        let at = place(&words[..], process, row.page);
        insert(words, process, at, n, row);
        return true;
    }
    false
}

// Unmaps a page: what it was mapped to.
pub fn unmap(words: &mut [u64], process: usize, page: Page) -> Option<Mapping>
    requires words_len { length words.old ≡ word_count }
    requires process_bound { process < 8 }
    ensures value { result ≡ translate_by (mapped_of (machine words.old) process) page.0 }
    ensures words_after { machine words.new ≡ unmap_by (machine words.old) process page.0 }
{
    let at = row_for(&words[..], process, page)?;
    let n = mapped_count(&words[..], process);
    let row = row_at(&words[..], process, at);
    take_out(words, process, at, at + 1, n);
    Some(row)
}

// Gives a mapped page other flags; false, and nothing changes, where it is not mapped.
pub fn remap(words: &mut [u64], process: usize, page: Page, flags: PageTableFlags) -> bool
    requires words_len { length words.old ≡ word_count }
    requires process_bound { process < 8 }
    ensures value { result ≡ is_found (row_for (mapped_of (machine words.old) process) page.0) }
    ensures words_after { machine words.new ≡ remap_by (machine words.old) process page.0 flags.0 }
{
    let Some(at) = row_for(&words[..], process, page) else {
        return false;
    };
    let row = row_at(&words[..], process, at);
    put_row(words, process, at, Mapping { flags, ..row });
    true
}

// Unmaps all pages that start inside a region.
pub fn unmap_from(words: &mut [u64], process: usize, region: Region)
    requires words_len { length words.old ≡ word_count }
    requires process_bound { process < 8 }
    ensures { machine words.new ≡ unmap_from_by (machine words.old) process region }
{
    let n = mapped_count(&words[..], process);
    let first = Page::starting_from(region.start, 0);
    let end = Page::starting_from(region.start, region.size);
    let from = place(&words[..], process, first);
    let to = place(&words[..], process, end);
    if from < to {
        take_out(words, process, from, to, n);
    }
}
