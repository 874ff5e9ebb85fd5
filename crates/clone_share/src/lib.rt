// A region's clone that shares its backings: the source's mappings without WRITABLE, one holder more of its range and of each entry's frame.
#![tactic(auto)]

ghost use Rattle.std.specs.Prelude.{◌≡◌, ◌+◌, ◌<◌, length};
ghost use Rattle.model.specs.Layout.{word_count, machine};
ghost use Rattle.laws.specs.Lists.{each};
ghost use Rattle.model.specs.Clone.{shared_row, single_pages, share_entry};
ghost use Rattle.lookup.specs.NextEntry.{held_of};
ghost use Rattle.clone_share.specs.ShareNext.{CanShare, ShareNext, Shareable, next_at};
ghost use Rattle.clone_share.specs.ShareInto.{held_range, Cloneable, shared_into};

use address::{Page, PhysFrame};
use backing::holders::hold;
use clone_pages::single_count;
use lookup::backed::next_entry;
use model::{Region, SLOTS};
use regions::add::{add_entry, add_region};
use regions::slot::region_in;
use remap::demote;
use rows::pages::entry_at;

// A page entry of the region in a row holds the same frame.
fn share_entry(words: &mut [u64], row: usize, page: Page, frame: PhysFrame)
    requires words_len { length words.old ≡ word_count }
    requires row_bound { row < 512 }
    requires can_share { CanShare (machine words.old) frame.0 }
    ensures { machine words.new ≡ share_entry row (record { page = page.0; frame = frame.0 }) (machine words.old) }
{
    hold(words, frame);
    add_entry(words, row, page, frame);
}

// Shares the next entry of the region in row `src`, from a page on; the page after it.
fn share_next(words: &mut [u64], src: u64, row: usize, page: Page) -> Page
    requires words_len { length words.old ≡ word_count }
    requires src_bound { src < 512 }
    requires row_bound { row < 512 }
    requires share_next { ShareNext (machine words.old) src page.0 }
    ensures result_value { result.0 ≡ (next_at (machine words.old).entries src page.0).page.0 + 1 }
    ensures words_after { machine words.new ≡ share_entry row (held_of (next_at (machine words.old).entries src page.0)) (machine words.old) }
{
    let Some(i) = next_entry(&words[..], src, page) else {
        return page;
    };
    let e = entry_at(&words[..], i);
    share_entry(words, row, e.page, e.frame);
    Page(e.page.0 + 1)
}

// Shares the entries of the region in row `src`, in page order.
fn share_entries(words: &mut [u64], src: u64, row: usize)
    requires words_len { length words.old ≡ word_count }
    requires src_bound { src < 512 }
    requires row_bound { row < 512 }
    requires shareable { Shareable (machine words.old) src row }
    ensures { machine words.new ≡ each (share_entry row) (single_pages (machine words.old).entries src) (machine words.old) }
{
    let n = single_count(&words[..], src);
    let mut page = Page(0);
    for i in 0..n {
        page = share_next(words, src, row, page);
    }
}

// One holder more of a region's range, if it has one.
fn hold_range(words: &mut [u64], region: Region)
    requires words_len { length words.old ≡ word_count }
    requires range_bound { region.ranged ≡ 1 → region.range.0 < 256 }
    ensures { machine words.new ≡ held_range (machine words.old) region }
{
    if region.ranged != 1 {
        return;
    }
    hold(words, region.range);
}

// The row of a region's clone: the same, with no pins.
fn shared_row(region: Region) -> Region
    ensures { result ≡ shared_row region }
{
    Region { pins: 0, ..region }
}

// Clones the region in a slot into a free slot of a process, sharing its backings.
pub fn share_into(words: &mut [u64], process: usize, slot: usize, target: usize, free: usize)
    requires words_len { length words.old ≡ word_count }
    requires process_bound { process < 8 }
    requires slot_bound { slot < 64 }
    requires target_bound { target < 8 }
    requires cloneable { Cloneable words.old process slot target free }
    ensures { machine words.new ≡ shared_into (machine words.old) process slot target }
{
    let region = region_in(&words[..], process, slot);
    demote(words, process, region);
    hold_range(words, region);
    add_region(words, target, free, shared_row(region));
    share_entries(
        words,
        (process * SLOTS + slot) as u64,
        target * SLOTS + free,
    );
}
