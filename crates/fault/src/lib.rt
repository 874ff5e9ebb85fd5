// Page faults: the way that a fault goes is chosen, refused or gone. The Rust's handle_fault.
#![tactic(auto)]

ghost use Rattle.std.specs.Prelude.{◌≡◌, true, ◌+◌, ◌*◌, ◌<◌, ◌≤◌, length};
ghost use Rattle.model.specs.Layout.{word_count, machine};
ghost use Rattle.model.specs.Machine.{region_at};
ghost use Rattle.model.specs.Backing.{frame_bytes, put_frame};
ghost use Rattle.model.specs.SoundTest.{soundb};
ghost use Rattle.model.specs.Fault.{fill_of, go_way, handle_fault};
ghost use Rattle.model.specs.Calls.{fault};
ghost use Rattle.rows.specs.LentMemory.{state_of, DoesWith};
ghost use Rattle.paging.specs.Mapper.{remap_by};
ghost use Rattle.fault_own.specs.Owned.{OwnFits, owned};
ghost use Rattle.fault.specs.Goes.{FaultFits, NextFits, FreshFits, Goes};

use address::{Page, PhysFrame, VirtAddr};
use answers::Refusal;
use fault_fill::fill_page;
use fault_needs::way_refusal;
use fault_own::own_frame;
use fault_way::fault_way;
use frames::copy;
use lookup::named::region_named;
use model::{Mapping, Way};
use paging::mapper::{map, remap};
use regions::slot::region_in;
use rows::backings::pool;

// Gives a mapped page the flags of the region in a slot.
fn restore(words: &mut [u64], process: usize, slot: usize, page: Page)
    requires words_len { length words.old ≡ word_count }
    requires process_bound { process < 8 }
    ensures { machine words.new ≡ remap_by (machine words.old) process page.0 (region_at (machine words.old) process slot).flags.0 }
{
    let region = region_in(&words[..], process, slot);
    remap(words, process, page, region.flags);
}

// Gives a page a frame of its own with the bytes of another, of a sound machine.
fn copy_page(
    words: &mut [u64],
    frames: &mut [u8],
    process: usize,
    slot: usize,
    page: Page,
    frame: PhysFrame,
)
    requires words_len { length words.old ≡ word_count }
    requires own_fits { OwnFits words.old process slot page.0 }
    requires next_fits { NextFits (machine words.old) (length frames.old) }
    requires frame_in_bounds { frame.0 * 4096 + 4096 ≤ length frames.old }
    ensures words_after { machine words.new ≡ owned (machine words.old) process slot page.0 }
    ensures frames_after { frames.new ≡ put_frame frames.old (machine words.old).pool.next.0 (frame_bytes frames.old frame.0) }
{
    let free = pool(&words[..]);
    copy(frames, frame, free.next);
    own_frame(words, process, slot, page);
}

// Gives a page a frame of its own with what a new page holds, of a sound machine.
fn fresh_page(
    words: &mut [u64],
    frames: &mut [u8],
    files: &[u8],
    process: usize,
    slot: usize,
    page: Page,
)
    requires words_len { length words.old ≡ word_count }
    requires own_fits { OwnFits words.old process slot page.0 }
    requires next_fits { NextFits (machine words.old) (length frames.old) }
    requires fresh_fits { FreshFits (machine words.old) (length files.now) process slot page.0 }
    ensures words_after { machine words.new ≡ owned (machine words.old) process slot page.0 }
    ensures frames_after { frames.new ≡ put_frame frames.old (machine words.old).pool.next.0 (fill_of (state_of words.old frames.old files.now) (region_at (machine words.old) process slot) page.0) }
{
    let region = region_in(&words[..], process, slot);
    let free = pool(&words[..]);
    fill_page(&words[..], frames, files, region, page, free.next);
    own_frame(words, process, slot, page);
}

// Goes a way that nothing refuses, of a sound machine.
fn go_way(
    words: &mut [u64],
    frames: &mut [u8],
    files: &[u8],
    process: usize,
    slot: usize,
    page: Page,
    way: Way,
)
    requires words_len { length words.old ≡ word_count }
    requires fault_fits { FaultFits words.old frames.old files.now process slot page.0 }
    requires goes { Goes (machine words.old) process slot page.0 way }
    ensures { state_of words.new frames.new files.now ≡ go_way (state_of words.old frames.old files.now) process slot page.0 way }
{
    match way {
        Way::Refuse(_) => {
            return;
        }
        Way::Already => {
            return;
        }
        Way::Restore => {
            restore(words, process, slot, page);
            return;
        }
        Way::Map { frame, flags } => {
            map(words, process, Mapping { page, frame, flags });
            return;
        }
        Way::Copy { frame } => {
            copy_page(words, frames, process, slot, page, frame);
            return;
        }
        Way::Fill => {
            fresh_page(words, frames, files, process, slot, page);
            return;
        }
    }
}

// A fault at a page of the region in a slot, of a sound machine.
pub fn handle_fault(
    words: &mut [u64],
    frames: &mut [u8],
    files: &[u8],
    process: usize,
    slot: usize,
    page: Page,
    write: bool,
) -> Result<(), Refusal>
    requires words_len { length words.old ≡ word_count }
    requires fault_fits { FaultFits words.old frames.old files.now process slot page.0 }
    ensures { DoesWith (λ s. handle_fault s process slot page.0 write) words.old frames.old files.now words.new frames.new result }
{
    let way = fault_way(&words[..], process, slot, page, write);
    way_refusal(&words[..], process, slot, page, way)?;
    go_way(words, frames, files, process, slot, page, way);
    Ok(())
}

// A fault at an address: the core of the call, of a sound machine.
pub fn fault_core(
    words: &mut [u64],
    frames: &mut [u8],
    files: &[u8],
    process: u64,
    addr: VirtAddr,
    write: bool,
) -> Result<(), Refusal>
    requires words_len { length words.old ≡ word_count }
    requires files_value { soundb (state_of words.old frames.old files.now) ≡ true }
    ensures { DoesWith (λ s. fault s process addr.0 write) words.old frames.old files.now words.new frames.new result }
{
    let slot = region_named(&words[..], process, addr)?;
    let page = Page::containing_address(addr);
    handle_fault(words, frames, files, process as usize, slot, page, write)
}
