// The places of a process in the text of the state: what each shows.
ghost use Rattle.std.specs.Prelude.{◌≡◌, ◌<◌, length};
ghost use Rattle.model.specs.Layout.{word_count};
ghost use Rattle.state_text.specs.Left.{left};

use crate::cursor::{Cursor, Line};
use crate::detached::next_detached;
use crate::lines::{entry_row, mapping_row, process_row, region_row};
use address::Page;
use lookup::attached::attached_count;
use lookup::backed::{backing_from, next_entry};
use model::{MAPPED_PAGES, REGIONS, SLOTS};
use rows::pages::{entry_at, mapping_at};
use rows::processes::process_at;
use rows::slots::{order_at, region_at};
use text::Row;

// What place k of a process shows.
pub fn place_of(words: &[u64], process: usize, k: usize, cursor: Cursor) -> Line
    requires words_len { length words.now ≡ word_count }
    requires process_bound { process < 8 }
    requires k_bound { k < 257 }
    requires going { cursor.place < 2314 }
    ensures { left result.next < left (Some cursor) }
{
    let row = process_at(words, process);
    if row.opened == 0 {
        return passed(None, cursor);
    }
    if k == 0 {
        return Line {
            row: Some(process_row(process as u64, row)),
            next: Some(cursor.next(0)),
        };
    }
    if k < 129 {
        return region_place(words, process, k - 1, cursor);
    }
    mapped_place(words, process, k - 129, cursor)
}

// A line, if there is one, and the next place.
pub fn passed(row: Option<Row>, cursor: Cursor) -> Line
    requires { cursor.place < 2314 }
    ensures { left result.next < left (Some cursor) }
{
    Line {
        row,
        next: Some(cursor.next(cursor.start)),
    }
}

// A mapped page's line, place s of the process's mapped pages.
fn mapped_place(words: &[u64], process: usize, s: usize, cursor: Cursor) -> Line
    requires words_len { length words.now ≡ word_count }
    requires process_bound { process < 8 }
    requires s_bound { s < 128 }
    requires going { cursor.place < 2314 }
    ensures { left result.next < left (Some cursor) }
{
    let row = process_at(words, process);
    if row.mapped <= s as u64 {
        return passed(None, cursor);
    }
    let mapping = mapping_at(words, process * MAPPED_PAGES + s);
    passed(Some(mapping_row(process as u64, mapping)), cursor)
}

// The next line of a region: its own, or a page entry's. Places below 64 are those of attached regions.
fn region_place(words: &[u64], process: usize, k: usize, cursor: Cursor) -> Line
    requires words_len { length words.now ≡ word_count }
    requires process_bound { process < 8 }
    requires going { cursor.place < 2314 }
    ensures { left result.next < left (Some cursor) }
{
    if 0 < cursor.shown {
        return next_entry_line(words, process, cursor);
    }
    if SLOTS <= k {
        let Some(slot) = next_detached(words, process, cursor.start) else {
            return passed(None, cursor);
        };
        return slot_line(words, process, slot, false, cursor);
    }
    if attached_count(words, process) <= k {
        return passed(None, cursor);
    }
    let slot = order_at(words, process * SLOTS + k) as usize;
    slot_line(words, process, slot, true, cursor)
}

// The line of the region in a slot; past the last slot there is none.
fn slot_line(words: &[u64], process: usize, slot: usize, attached: bool, cursor: Cursor) -> Line
    requires words_len { length words.now ≡ word_count }
    requires process_bound { process < 8 }
    requires going { cursor.place < 2314 }
    requires shown_value { cursor.shown ≡ 0 }
    ensures { left result.next < left (Some cursor) }
{
    if SLOTS <= slot {
        return passed(None, cursor);
    }
    let row = process * SLOTS + slot;
    let region = region_at(words, row);
    let range = backing_from(words, region.range);
    Line {
        row: Some(region_row(process as u64, region, attached, range)),
        next: Some(cursor.inside(row, next_start(region.start.0, attached))),
    }
}

// The start from which the next detached region is looked for.
fn next_start(start: u64, attached: bool) -> u64 {
    if attached { 0 } else { start.wrapping_add(1) }
}

// The line of a region's next page entry, if there is one.
fn next_entry_line(words: &[u64], process: usize, cursor: Cursor) -> Line
    requires words_len { length words.now ≡ word_count }
    requires going { cursor.place < 2314 }
    ensures { left result.next < left (Some cursor) }
{
    if REGIONS <= cursor.row || 513 <= cursor.shown {
        return passed(None, cursor);
    }
    let Some(i) = next_entry(words, cursor.row as u64, Page(cursor.page)) else {
        return passed(None, cursor);
    };
    let entry = entry_at(words, i);
    let backing = backing_from(words, entry.frame);
    Line {
        row: Some(entry_row(process as u64, entry, backing.holders)),
        next: Some(cursor.past(entry.page)),
    }
}
