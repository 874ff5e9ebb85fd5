// Which pages populate visits: the range of an address and a length, the next region past a gap, and how a walk goes on.
#![tactic(auto)]

ghost use Rattle.std.specs.Prelude.{◌≡◌, ◌+◌, ◌*◌, ◌/◌, ◌^◌, ◌<◌, length, get_or};
ghost use Rattle.model.specs.Layout.{word_count, machine};
ghost use Rattle.model.specs.Machine.{region_at};
ghost use Rattle.model.specs.Populate.{lower, next_start};
ghost use Rattle.populate_visit.specs.PageWalk.{span_of, gap_visit, page_visit, ended};

use address::{Page, VirtAddr};
use answers::Refusal;
use lookup::attached::attached_count;
use model::SLOTS;
use regions::slot::region_in;
use rows::slots::order_at;

// Where a range ends: nowhere, above the user addresses, or at its last address.
#[derive(Clone, Copy)]
pub enum Span {
    Nothing,
    Upper,
    To(VirtAddr),
}

// A walk: the next page, how many steps are left, and the answer so far. Once it has ended none is left.
#[derive(Clone, Copy)]
pub struct Visit {
    pub page: Page,
    pub left: u64,
    pub done: Result<(), Refusal>,
}

// The range of `len` bytes from a user address on.
pub fn span_of(addr: VirtAddr, len: u64) -> Span
    requires { addr.0 < 2 ^ 47 }
    ensures { result ≡ span_of addr.0 len }
{
    if len == 0 {
        return Span::Nothing;
    }
    if 0xffff_ffff_ffff_ffff - (len - 1) < addr.0 {
        return Span::Nothing;
    }
    let last = VirtAddr(addr.0 + (len - 1));
    if !last.is_canonical() {
        return Span::Nothing;
    }
    if !last.is_user() {
        return Span::Upper;
    }
    Span::To(last)
}

// The lower of two pages that are above a page.
fn nearer(page: Page, start: Page, later: Option<usize>) -> Option<usize>
    ensures { result ≡ lower page.0 start.0 later }
{
    if start.0 <= page.0 {
        return later;
    }
    match later {
        Some(other) => Some(other.min(start.0 as usize)),
        None => Some(start.0 as usize),
    }
}

// The lower of the first page of the region at place i of the list and one found after it.
fn nearer_at(
    words: &[u64],
    process: usize,
    page: Page,
    i: usize,
    later: Option<usize>,
) -> Option<usize>
    requires words_len { length words.now ≡ word_count }
    requires process_bound { process < 8 }
    requires i_bound { i < 64 }
    ensures { result ≡ lower page.0 ((region_at (machine words.now) process (get_or (machine words.now).order (process * 64 + i) 0)).start.0 / 4096) later }
{
    let slot = order_at(words, process * SLOTS + i);
    let region = region_in(words, process, slot as usize);
    nearer(page, Page::containing_address(region.start), later)
}

// The next page above a page at which an attached region starts.
fn next_start(words: &[u64], process: usize, page: Page) -> Option<usize>
    requires words_len { length words.now ≡ word_count }
    requires process_bound { process < 8 }
    ensures { result ≡ next_start (machine words.now) process page.0 }
{
    let count = attached_count(words, process);
    let mut found = None;
    for i in (0..count).rev() {
        found = nearer_at(words, process, page, i, found);
    }
    found
}

// A walk that has ended.
pub fn end(done: Result<(), Refusal>) -> Visit
    ensures { result ≡ ended done }
{
    Visit {
        page: Page(0),
        left: 0,
        done,
    }
}

// How a walk goes on from a page in no region: at the next region, if there is one.
pub fn next_region(words: &[u64], process: usize, page: Page, left: u64) -> Visit
    requires words_len { length words.now ≡ word_count }
    requires process_bound { process < 8 }
    requires left_nonzero { 0 < left }
    ensures { result ≡ gap_visit left (next_start (machine words.now) process page.0) }
{
    let Some(next) = next_start(words, process, page) else {
        return end(Ok(()));
    };
    Visit {
        page: Page(next as u64),
        left: left - 1,
        done: Ok(()),
    }
}

// How a walk goes on from a page that was visited: a refusal ends it.
pub fn after_page(page: Page, left: u64, done: Result<(), Refusal>) -> Visit
    requires page_bound { page.0 < 2 ^ 52 }
    requires left_nonzero { 0 < left }
    ensures { result ≡ page_visit page.0 left done }
{
    match done {
        Err(refusal) => end(Err(refusal)),
        Ok(()) => Visit {
            page: Page(page.0 + 1),
            left: left - 1,
            done: Ok(()),
        },
    }
}
