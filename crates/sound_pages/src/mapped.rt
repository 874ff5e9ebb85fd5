// R4 and R5: a mapped page starts in one attached region, its frame is that region's backing of the page, and its flags fit.
ghost use Rattle.std.specs.Prelude.{◌≡◌, true, ◌&&◌, ◌||◌, not, ◌+◌, ◌-◌, ◌≤◌, ◌<◌, length, eqb, ltb, leb};
ghost use Rattle.model.specs.Layout.{word_count, machine};
ghost use Rattle.model.specs.Machine.{mapped_of};
ghost use Rattle.model.specs.Lookup.{row_found, is_attached};
ghost use Rattle.model.specs.SoundTest.{flaggedb, r4b, r5b};
ghost use Rattle.paging.specs.Order.{Rising};
ghost use Rattle.sound_pages.specs.Laid.{Laid};
ghost use Rattle.sound_pages.specs.MappedHome.{home_at};
ghost use Rattle.sound_pages.specs.MappedFit.{all_fit, allows, range_allows};
ghost use Rattle.sound_pages.specs.MappedMarks.{of_process, Seen};
ghost use Rattle.sound_pages.specs.MappedTests.{is_own};
ghost use Rattle.sound_pages.specs.MappedSpans.{ProcessOf, Spanned, Unspanned, Spans};
ghost use Rattle.sound_pages.specs.MappedEntries.{RowOf, After, AfterAll};
ghost use Rattle.sound_pages.specs.MappedRows.{HeldAt, listed, FitFrom, Ran};

use address::{PAGE_COUNT, Page, PageTableFlags, VirtAddr};
use lookup::attached::{attached_count, slot_contains};
use lookup::backed::{backing_from, pages_past};
use model::{ENTRIES, Entry, MAPPED_PAGES, Mapping, PROCESSES, REGIONS, Region, SHARED, SLOTS};
use paging::search::{mapped_count, row_at, row_for, stands_at};
use rows::pages::entry_at;
use rows::sizes::pages_for;
use rows::slots::{order_at, region_at};

// Whether flags are a region's own, or those without WRITABLE.
fn is_own(own: PageTableFlags, flags: PageTableFlags) -> bool
    ensures { result ≡ is_own own.0 flags.0 }
{
    if flags.0 == own.0 {
        return true;
    }
    let without = own.read_only();
    flags.0 == without.0
}

// R5 of a mapping's flags, its region and the holders of the page's backing.
fn flags_fit(region: Region, flags: PageTableFlags, holders: u64) -> bool
    ensures { result ≡ flaggedb region flags.0 holders }
{
    if region.kind == SHARED {
        return flags.0 == 0x8000_0000_0000_0007;
    }
    if !is_own(region.flags, flags) {
        return false;
    }
    if flags.is_writable() {
        return holders == 1;
    }
    true
}

// Whether an entry is of a region of a process.
fn is_of(entry: Entry, process: usize) -> bool
    requires { process < 8 }
    ensures { result ≡ of_process process entry }
{
    let first = process as u64 * SLOTS as u64;
    if first < entry.owner {
        return entry.owner <= first + SLOTS as u64;
    }
    false
}

// Whether a mapping is one that an entry allows: its frame, and flags that fit its region and the frame's holders.
fn entry_allows(words: &[u64], entry: Entry, mapping: Mapping) -> bool
    requires words_len { length words.now ≡ word_count }
    requires le_owner { 1 ≤ entry.owner }
    requires owner_bound { entry.owner ≤ 512 }
    ensures { result ≡ allows (machine words.now) entry mapping }
{
    if entry.frame.0 != mapping.frame.0 {
        return false;
    }
    let owner = region_at(words, (entry.owner - 1) as usize);
    let backing = backing_from(words, entry.frame);
    flags_fit(owner, mapping.flags, backing.holders)
}

// The page that row 0 would have if all pages up to one in a row were mapped.
fn first_page(page: Page, row: usize) -> u64 {
    page.pages_past(Page(row as u64))
}

// The row in which a page is mapped: as far from row 0 as from a first page, or else by the search.
fn row_near(words: &[u64], process: usize, page: Page, first: u64) -> Option<usize>
    requires words_len { length words.now ≡ word_count }
    requires process_bound { process < 8 }
    ensures result_bound { row_found result < 128 }
    ensures row_of { Rising (mapped_of (machine words.now) process) → RowOf (mapped_of (machine words.now) process) page.0 result }
{
    let near = page.pages_past(Page(first)) as usize;
    if stands_at(words, process, near, page) {
        return Some(near);
    }
    row_for(words, process, page)
}

// Marks the row in which the page of entry i is mapped, if the entry is of the process and allows the mapping: the page that row 0
// would have if all pages up to the entry's were mapped; none where the entry does not allow its page's mapping.
fn mark_entry(words: &[u64], process: usize, i: usize, first: u64, marks: &mut [u8]) -> Option<u64>
    requires words_len { length words.now ≡ word_count }
    requires process_bound { process < 8 }
    requires i_bound { i < 512 }
    requires marks_len { length marks.old ≡ 128 }
    ensures { Laid (machine words.now) → Seen (machine words.now) process i marks.old → After (machine words.now) process (i + 1) marks.new result }
{
    let entry = entry_at(words, i);
    if !is_of(entry, process) {
        return Some(first);
    }
    let Some(row) = row_near(words, process, entry.page, first) else {
        return Some(first);
    };
    let mapping = row_at(words, process, row);
    if !entry_allows(words, entry, mapping) {
        return None;
    }
    marks[row] = 1;
    Some(first_page(entry.page, row))
}

// Marks the mapped rows whose pages have an entry; no where a mapping is not what its entry allows. The process's entries lie from
// one row up to another. Neighbouring pages are mostly mapped together, so each is looked for first as far from the last one's row as its
// page is from that one's.
fn mark_entries(words: &[u64], process: usize, from: usize, to: usize, marks: &mut [u8]) -> bool
    requires words_len { length words.now ≡ word_count }
    requires process_bound { process < 8 }
    requires from_bound { (from ≤ 512) × (to ≤ 512) }
    requires marks_len { length marks.old ≡ 128 }
    ensures { Laid (machine words.now) → Spanned (machine words.now) process from to → Seen (machine words.now) process 0 marks.old → AfterAll (machine words.now) process marks.new result }
{
    let mut first = 0;
    for i in from..to {
        let Some(next) = mark_entry(words, process, i, first, marks) else {
            return false;
        };
        first = next;
    }
    true
}

// Whether a mapping is one that a region's range allows. The frame is compared by its offset: the sum may not fit.
fn range_allows(words: &[u64], region: Region, mapping: Mapping) -> bool
    requires { length words.now ≡ word_count }
    ensures { result ≡ range_allows (machine words.now) region mapping }
{
    if region.ranged != 1 {
        return false;
    }
    let backing = backing_from(words, region.range);
    let offset = pages_past(region, mapping.page);
    if backing.len <= offset {
        return false;
    }
    if mapping.frame.0 < region.range.0 {
        return false;
    }
    if mapping.frame.0 - region.range.0 != offset {
        return false;
    }
    flags_fit(region, mapping.flags, backing.holders)
}

// The first place of a process's list, from one up to another, whose region holds an address.
fn place_for(words: &[u64], process: usize, addr: VirtAddr, from: usize, to: usize) -> Option<usize>
    requires words_len { length words.now ≡ word_count }
    requires process_bound { process < 8 }
    requires to_bound { to ≤ 64 }
    ensures { HeldAt (machine words.now) process addr.0 from to result }
{
    for i in from..to {
        let slot = order_at(words, process * SLOTS + i) as usize;
        if slot_contains(words, process, slot, addr) {
            return Some(i);
        }
    }
    None
}

// The place after the next one, or the end of the list.
fn two_from(near: usize, count: usize) -> usize
    requires { near < 64 }
    ensures { result ≤ count }
{
    if near + 2 < count {
        return near + 2;
    }
    count
}

// The place of the attached region in which a page starts: the one after a place, or else any. No region holds a page past the user
// addresses.
fn home_place(words: &[u64], process: usize, page: Page, near: usize) -> Option<usize>
    requires words_len { length words.now ≡ word_count }
    requires process_bound { process < 8 }
    requires near_bound { near < 64 }
    ensures result_bound { row_found result < 64 }
    ensures result_value { Laid (machine words.now) → listed (machine words.now) process result ≡ home_at (machine words.now) process page.0 }
{
    if page.0 >= PAGE_COUNT {
        return None;
    }
    let start = page.start_address();
    let count = attached_count(words, process);
    let to = two_from(near, count);
    let Some(place) = place_for(words, process, start, near + 1, to) else {
        return place_for(words, process, start, 0, count);
    };
    Some(place)
}

// Whether a page is one of so many pages from a first one on.
fn is_among(page: Page, first: Page, pages: u64) -> bool
    ensures { result ≡ (leb first.0 page.0 && ltb (page.0 - first.0) pages) }
{
    if page.0 < first.0 {
        return false;
    }
    page.0 - first.0 < pages
}

// Whether a mapping's row is marked, or else its home's range allows it.
fn is_backed(words: &[u64], region: Region, mapping: Mapping, mark: u8) -> bool
    requires { length words.now ≡ word_count }
    ensures { result ≡ (not (eqb mark 0) || range_allows (machine words.now) region mapping) }
{
    if mark != 0 {
        return true;
    }
    range_allows(words, region, mapping)
}

// Goes through a process's mapped rows, from one on, as long as they start in the region of an attached slot: the row after them, or
// nothing where one of them does not fit.
fn run_fits(words: &[u64], process: usize, slot: usize, from: usize, marks: &[u8]) -> Option<usize>
    requires words_len { length words.now ≡ word_count }
    requires process_bound { process < 8 }
    requires marks_len { length marks.now ≡ 128 }
    ensures { Laid (machine words.now) → Seen (machine words.now) process 512 marks.now → is_attached (machine words.now) process slot ≡ true → FitFrom (machine words.now) process from → Ran (machine words.now) process slot from result }
{
    if slot >= SLOTS {
        return None;
    }
    let region = region_at(words, process * SLOTS + slot);
    let first = Page::containing_address(region.start);
    let pages = pages_for(region.size);
    let n = mapped_count(words, process);
    for i in from..n {
        let mapping = row_at(words, process, i);
        if !is_among(mapping.page, first, pages) {
            return Some(i);
        }
        if !is_backed(words, region, mapping, marks[i]) {
            return None;
        }
    }
    Some(n)
}

// Whether every mapped page of a process fits, where those that have an entry are marked. Pages rise, so rows of one home follow each
// other, and the next home is looked for near the last one's place in the list.
fn rows_fit(words: &[u64], process: usize, marks: &[u8]) -> bool
    requires words_len { length words.now ≡ word_count }
    requires process_bound { process < 8 }
    requires marks_len { length marks.now ≡ 128 }
    ensures { Laid (machine words.now) → Seen (machine words.now) process 512 marks.now → result ≡ all_fit (machine words.now) process }
{
    let n = mapped_count(words, process);
    let mut near = 0;
    let mut i = 0;
    // A `while`: a turn passes a whole run of rows, not one.
    while i < n {
        let mapping = row_at(words, process, i);
        let Some(place) = home_place(words, process, mapping.page, near) else {
            return false;
        };
        let slot = order_at(words, process * SLOTS + place) as usize;
        let Some(next) = run_fits(words, process, slot, i, marks) else {
            return false;
        };
        if next <= i {
            return false;
        }
        near = place;
        i = next;
    }
    true
}

// R4 and R5 of a process whose entries lie from one row up to another: one pass over these, then one over its mapped pages.
fn process_mapped_fit(words: &[u64], process: usize, from: usize, to: usize) -> bool
    requires words_len { length words.now ≡ word_count }
    requires process_bound { process < 8 }
    requires from_bound { (from ≤ 512) × (to ≤ 512) }
    ensures { Laid (machine words.now) → Spanned (machine words.now) process from to → result ≡ all_fit (machine words.now) process }
{
    let n = mapped_count(words, process);
    if n == 0 {
        return true;
    }
    let mut marks = [0u8; MAPPED_PAGES];
    if !mark_entries(words, process, from, to, &mut marks) {
        return false;
    }
    rows_fit(words, process, &marks)
}

// The process of an entry's owner; 8 where it has none.
fn process_of(entry: Entry) -> usize
    ensures { ProcessOf entry result }
{
    if entry.owner == 0 {
        return PROCESSES;
    }
    if (REGIONS as u64) < entry.owner {
        return PROCESSES;
    }
    ((entry.owner - 1) / SLOTS as u64) as usize
}

// Of each process the row of the first entry, 512 where it has none, and the row after the last. An entry of the same process as
// the one before is not its first.
fn span_entries(words: &[u64], firsts: &mut [usize], pasts: &mut [usize])
    requires words_len { length words.now ≡ word_count }
    requires unspanned { Unspanned firsts.old pasts.old }
    ensures { Spans (machine words.now) firsts.new pasts.new 512 }
{
    let mut last = PROCESSES;
    for i in 0..ENTRIES {
        let entry = entry_at(words, i);
        let process = process_of(entry);
        if process == PROCESSES {
            continue;
        }
        pasts[process] = i + 1;
        if process == last {
            continue;
        }
        last = process;
        if firsts[process] != ENTRIES {
            continue;
        }
        firsts[process] = i;
    }
}

// R4 and R5 of every process.
// Its own frame: inlined, the stages of the test together exceed the system call's 2 KB of stack.
#[inline(never)]
pub fn mapped_fit(words: &[u64]) -> bool
    requires { length words.now ≡ word_count }
    ensures { Laid (machine words.now) → result ≡ (r4b (machine words.now) && r5b (machine words.now)) }
{
    let mut firsts: [usize; PROCESSES] = [ENTRIES; PROCESSES];
    let mut pasts: [usize; PROCESSES] = [0; PROCESSES];
    span_entries(words, &mut firsts, &mut pasts);
    for i in 0..PROCESSES {
        if !process_mapped_fit(words, i, firsts[i], pasts[i]) {
            return false;
        }
    }
    true
}
