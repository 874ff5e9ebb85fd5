// A region's clone that copies its backed pages: each into the lowest free frame, the range's first, then the entries', in page order.
#![tactic(auto)]

ghost use Rattle.std.specs.Prelude.{◌≡◌, false, ◌+◌, ◌<◌, length};
ghost use Rattle.model.specs.Layout.{word_count, machine};
ghost use Rattle.model.specs.Lookup.{is_found};
ghost use Rattle.model.specs.Backing.{entry_for};
ghost use Rattle.model.specs.Clone.{copied_row};
ghost use Rattle.clone_share.specs.ShareNext.{next_at};
ghost use Rattle.clone_copy.specs.CopyPage.{CanCopy, copied_machine, copied_frames, bare_machine, bare_frames};
ghost use Rattle.clone_copy.specs.CopyRange.{RangeCopy, RangeCopied};
ghost use Rattle.clone_copy.specs.CopyEntries.{CopyNext, SingleCopy, SinglesCopied};
ghost use Rattle.clone_copy.specs.CopyInto.{PagesCopy, PagesCopied, Copyable, CopiedInto};

use address::{Page, PhysFrame};
use backing::holders::take_frame;
use clone_pages::{is_shadowed, nth_page, range_len, single_count};
use frames::copy;
use lookup::backed::next_entry;
use model::{Region, SLOTS};
use regions::add::{add_entry, add_region};
use regions::slot::region_in;
use rows::pages::entry_at;

// Copies a frame into the lowest free one, and enters it as a page of the region in a row.
fn copy_entry(words: &mut [u64], frames: &mut [u8], row: usize, page: Page, from: PhysFrame)
    requires words_len { length words.old ≡ word_count }
    requires row_bound { row < 512 }
    requires can_copy { CanCopy (machine words.old) (length frames.old) from.0 }
    ensures words_after { machine words.new ≡ copied_machine (machine words.old) row page.0 }
    ensures frames_after { frames.new ≡ copied_frames (machine words.old) frames.old from.0 }
{
    let Some(new) = take_frame(words) else {
        return;
    };
    copy(frames, from, new);
    add_entry(words, row, page, new);
}

// Copies a page of a range, unless an entry of the region in row `src` shadows it.
fn copy_bare(
    words: &mut [u64],
    frames: &mut [u8],
    src: u64,
    row: usize,
    page: Page,
    from: PhysFrame,
)
    requires words_len { length words.old ≡ word_count }
    requires src_bound { src < 512 }
    requires row_bound { row < 512 }
    requires can_copy { is_found (entry_for (machine words.old) src page.0) ≡ false → CanCopy (machine words.old) (length frames.old) from.0 }
    ensures words_after { machine words.new ≡ bare_machine (machine words.old) src row page.0 }
    ensures frames_after { frames.new ≡ bare_frames (machine words.old) frames.old src page.0 from.0 }
{
    if is_shadowed(&words[..], src, page) {
        return;
    }
    copy_entry(words, frames, row, page, from);
}

// Copies the pages of a range of `len` frames.
fn copy_range(words: &mut [u64], frames: &mut [u8], src: u64, row: usize, region: Region, len: u64)
    requires words_len { length words.old ≡ word_count }
    requires src_bound { src < 512 }
    requires row_bound { row < 512 }
    requires range_copy { RangeCopy (machine words.old) (length frames.old) src row region len }
    ensures { RangeCopied words.old frames.old src row region len words.new frames.new }
{
    for i in 0..len {
        let from = PhysFrame(region.range.0 + i);
        copy_bare(words, frames, src, row, nth_page(region, i), from);
    }
}

// Copies the next entry's page of the region in row `src`, from a page on; the page after it.
fn copy_next(words: &mut [u64], frames: &mut [u8], src: u64, row: usize, page: Page) -> Page
    requires words_len { length words.old ≡ word_count }
    requires src_bound { src < 512 }
    requires row_bound { row < 512 }
    requires copy_next { CopyNext (machine words.old) (length frames.old) src page.0 }
    ensures result_value { result.0 ≡ (next_at (machine words.old).entries src page.0).page.0 + 1 }
    ensures words_after { machine words.new ≡ copied_machine (machine words.old) row (next_at (machine words.old).entries src page.0).page.0 }
    ensures frames_after { frames.new ≡ copied_frames (machine words.old) frames.old (next_at (machine words.old).entries src page.0).frame.0 }
{
    let Some(i) = next_entry(&words[..], src, page) else {
        return page;
    };
    let e = entry_at(&words[..], i);
    copy_entry(words, frames, row, e.page, e.frame);
    Page(e.page.0 + 1)
}

// Copies the pages of the entries of the region in row `src`, in page order.
fn copy_entries(words: &mut [u64], frames: &mut [u8], src: u64, row: usize)
    requires words_len { length words.old ≡ word_count }
    requires src_bound { src < 512 }
    requires row_bound { row < 512 }
    requires single_copy { SingleCopy (machine words.old) (length frames.old) src row }
    ensures { SinglesCopied words.old frames.old src row words.new frames.new }
{
    let n = single_count(&words[..], src);
    let mut page = Page(0);
    for i in 0..n {
        page = copy_next(words, frames, src, row, page);
    }
}

// The row of a region's copy: the same, with no pins and no range.
fn copied_row(region: Region) -> Region
    ensures { result ≡ copied_row region }
{
    Region {
        pins: 0,
        ranged: 0,
        range: PhysFrame(0),
        ..region
    }
}

// Copies the range's pages of a region and then its entries' into the region in row `row`.
fn copy_pages(words: &mut [u64], frames: &mut [u8], src: u64, row: usize, region: Region)
    requires words_len { length words.old ≡ word_count }
    requires src_bound { src < 512 }
    requires row_bound { row < 512 }
    requires pages_copy { PagesCopy (machine words.old) (length frames.old) src row region }
    ensures { PagesCopied words.old frames.old src row region words.new frames.new }
{
    let len = range_len(&words[..], region);
    copy_range(words, frames, src, row, region, len);
    copy_entries(words, frames, src, row);
}

// Clones the region in a slot into a free slot of a process, copying its backed pages: the Rust's copy_into.
pub fn copy_into(
    words: &mut [u64],
    frames: &mut [u8],
    process: usize,
    slot: usize,
    target: usize,
    free: usize,
)
    requires words_len { length words.old ≡ word_count }
    requires process_bound { process < 8 }
    requires slot_bound { slot < 64 }
    requires target_bound { target < 8 }
    requires copyable { Copyable words.old frames.old process slot target free }
    ensures { CopiedInto words.old frames.old process slot target words.new frames.new }
{
    let region = region_in(&words[..], process, slot);
    add_region(words, target, free, copied_row(region));
    let src = (process * SLOTS + slot) as u64;
    copy_pages(words, frames, src, target * SLOTS + free, region);
}
