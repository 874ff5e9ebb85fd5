// Populate: faults over the pages of a range, in rising order.
#![tactic(auto)]

ghost use Rattle.std.specs.Prelude.{◌≡◌, true, ◌^◌, ◌<◌, length, Ok};
ghost use Rattle.model.specs.Layout.{word_count};
ghost use Rattle.model.specs.SoundTest.{soundb};
ghost use Rattle.model.specs.Populate.{populate_page, visit, visits};
ghost use Rattle.model.specs.Calls.{populate};
ghost use Rattle.rows.specs.LentMemory.{state_of, DoesWith};
ghost use Rattle.fault.specs.Goes.{FaultFits};
ghost use Rattle.populate.specs.PopulateWalk.{Stepped};

use address::{Page, VirtAddr};
use answers::Refusal;
use fault::handle_fault;
use fault_way::well_mapped;
use lookup::attached::region_for;
use lookup::search::is_open;
use paging::search::translate;
use populate_visit::{Span, Visit, after_page, end, next_region, span_of};

// The most steps of a walk: each of the 128 pages that can be mapped and one that is refused, each gap before a region, one
// gap more, and one page past the last.
const VISITS: u64 = 195;

// One page of the region in a slot, of a sound machine: a fault, unless it is mapped well enough.
fn populate_page(
    words: &mut [u64],
    frames: &mut [u8],
    files: &[u8],
    process: usize,
    slot: usize,
    page: Page,
    write: bool,
) -> Result<(), Refusal>
    requires words_len { length words.old ≡ word_count }
    requires fault_fits { FaultFits words.old frames.old files.now process slot page.0 }
    ensures { DoesWith (λ s. populate_page s process slot page.0 write) words.old frames.old files.now words.new frames.new result }
{
    let mapped = translate(&words[..], process, page);
    if well_mapped(mapped, write) {
        return Ok(());
    }
    handle_fault(words, frames, files, process, slot, page, write)
}

// One step of a walk to a last page, of a sound machine: a page of a region, or the gap up to the next one.
fn visit_step(
    words: &mut [u64],
    frames: &mut [u8],
    files: &[u8],
    process: usize,
    last: Page,
    write: bool,
    at: Visit,
) -> Visit
    requires words_len { length words.old ≡ word_count }
    requires files_value { soundb (state_of words.old frames.old files.now) ≡ true }
    requires process_bound { process < 8 }
    requires last_bound { last.0 < 2 ^ 52 }
    requires left_nonzero { 0 < at.left }
    requires done_value { at.done ≡ Ok tt }
    ensures { Stepped process last.0 write at (state_of words.old frames.old files.now) result (state_of words.new frames.new files.now) }
{
    if last.0 < at.page.0 {
        return end(Ok(()));
    }
    let page = at.page;
    let Some(slot) = region_for(&words[..], process, page.start_address()) else {
        return next_region(&words[..], process, page, at.left);
    };
    let done = populate_page(words, frames, files, process, slot, page, write);
    after_page(page, at.left, done)
}

// Visits the pages from the first to the last, of a sound machine.
pub fn visit(
    words: &mut [u64],
    frames: &mut [u8],
    files: &[u8],
    process: usize,
    first: Page,
    last: Page,
    write: bool,
) -> Result<(), Refusal>
    requires words_len { length words.old ≡ word_count }
    requires files_value { soundb (state_of words.old frames.old files.now) ≡ true }
    requires process_bound { process < 8 }
    requires last_bound { last.0 < 2 ^ 52 }
    ensures { DoesWith (λ s. visit visits s process first.0 last.0 write) words.old frames.old files.now words.new frames.new result }
{
    let mut at = Visit {
        page: first,
        left: VISITS,
        done: Ok(()),
    };
    // a `while`: how many steps are left is a part of the walk, and the step that ends it leaves none
    while 0 < at.left {
        at = visit_step(words, frames, files, process, last, write, at);
    }
    at.done
}

// Populates a range: the core of the call, of a sound machine.
pub fn populate_core(
    words: &mut [u64],
    frames: &mut [u8],
    files: &[u8],
    process: u64,
    addr: VirtAddr,
    len: u64,
    write: bool,
) -> Result<(), Refusal>
    requires words_len { length words.old ≡ word_count }
    requires files_value { soundb (state_of words.old frames.old files.now) ≡ true }
    ensures { DoesWith (λ s. populate s process addr.0 len write) words.old frames.old files.now words.new frames.new result }
{
    if !is_open(&words[..], process) {
        return Err(Refusal::NoProcess);
    }
    if !addr.is_user() {
        return Err(Refusal::BadAddress);
    }
    match span_of(addr, len) {
        Span::Upper => Err(Refusal::BadRange),
        Span::Nothing => Ok(()),
        Span::To(last) => {
            let first_page = Page::containing_address(addr);
            let last_page = Page::containing_address(last);
            visit(
                words,
                frames,
                files,
                process as usize,
                first_page,
                last_page,
                write,
            )
        }
    }
}
