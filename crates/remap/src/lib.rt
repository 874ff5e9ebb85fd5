// A process's mapped pages given other flags, row by row; a region's made read-only.
#![tactic(auto)]

ghost use Rattle.std.specs.Prelude.{◌≡◌, ◌<◌, length, get_or, set};
ghost use Rattle.model.specs.Layout.{word_count, machine};
ghost use Rattle.model.specs.Machine.{no_mapping};
ghost use Rattle.model.specs.Lookup.{contains};
ghost use Rattle.model.specs.Paging.{mapping, page_start};
ghost use Rattle.paging.specs.ProcessRows.{rows_of, with_rows};
ghost use Rattle.remap.specs.Remapped.{remapped};
ghost use Rattle.remap.specs.Demoted.{read_only_in, demoted_in};

use address::{Page, PageTableFlags};
use model::{Mapping, Region, SHARED};
use paging::mappings::put_row;
use paging::search::{mapped_count, row_at};

// Whether a page starts inside a region.
pub fn maps_in(region: Region, page: Page) -> bool
    ensures { result ≡ contains region (page_start page.0) }
{
    let first = Page::starting_from(region.start, 0);
    if page.0 < first.0 {
        return false;
    }
    let end = Page::starting_from(region.start, region.size);
    page.0 < end.0
}

// A row with other flags.
pub fn reflag(row: Mapping, flags: PageTableFlags) -> Mapping
    ensures { result ≡ mapping row.page.0 row.frame.0 flags.0 }
{
    Mapping { flags, ..row }
}

// Takes WRITABLE off a row whose page starts inside a region.
fn demote_row(words: &mut [u64], process: usize, i: usize, region: Region)
    requires words_len { length words.old ≡ word_count }
    requires process_bound { process < 8 }
    requires i_bound { i < 128 }
    ensures { machine words.new ≡ with_rows (machine words.old) process (set (rows_of (machine words.old) process) i (read_only_in region (get_or (rows_of (machine words.old) process) i no_mapping))) }
{
    let row = row_at(&words[..], process, i);
    if !maps_in(region, row.page) {
        return;
    }
    put_row(words, process, i, reflag(row, row.flags.read_only()));
}

// Takes WRITABLE off the mapped pages that start inside a region.
fn demote_rows(words: &mut [u64], process: usize, region: Region)
    requires words_len { length words.old ≡ word_count }
    requires process_bound { process < 8 }
    ensures { machine words.new ≡ remapped (read_only_in region) (machine words.old) process }
{
    let n = mapped_count(&words[..], process);
    for i in 0..n {
        demote_row(words, process, i, region);
    }
}

// Takes WRITABLE off a region's mapped pages; a shared region's keep all flags.
pub fn demote(words: &mut [u64], process: usize, region: Region)
    requires words_len { length words.old ≡ word_count }
    requires process_bound { process < 8 }
    ensures { machine words.new ≡ remapped (demoted_in region) (machine words.old) process }
{
    if region.kind == SHARED {
        return;
    }
    demote_rows(words, process, region);
}
