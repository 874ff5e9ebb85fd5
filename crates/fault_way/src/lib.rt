// Which way a page fault goes, by a region, what its page is mapped to and what backs it: the Rust's handle_fault of the three kinds.
#![tactic(auto)]

ghost use Rattle.std.specs.Prelude.{◌≡◌, ◌<◌, length};
ghost use Rattle.model.specs.Layout.{word_count, machine};
ghost use Rattle.model.specs.Paging.{well_mapped};
ghost use Rattle.model.specs.Fault.{backed_way, mapped_way, unbacked_way, unmapped_way, private_way, shared_way, fault_way};
ghost use Rattle.fault_way.specs.Way.{copied_way, asks_backing};
ghost use Rattle.rows.specs.LentMemory.{SoundWords};

use address::{Page, PageTableFlags, PhysFrame};
use answers::Refusal;
use lookup::backed::backing_of;
use model::{Backed, Mapping, Region, SHARED, Way};
use paging::search::translate;
use regions::slot::region_in;

// Whether a page is mapped well enough: for a write it must be writable.
pub fn well_mapped(page: Option<Mapping>, write: bool) -> bool
    ensures { result ≡ well_mapped page write }
{
    let Some(row) = page else {
        return false;
    };
    if !write {
        return true;
    }
    row.flags.is_writable()
}

// A page that is not mapped and that a frame with `count` holders backs.
fn backed_way(region: Region, frame: PhysFrame, count: u64, write: bool) -> Way
    ensures { result ≡ backed_way region frame count write }
{
    let flags = region.flags;
    if !flags.is_writable() {
        if write {
            return Way::Refuse(Refusal::NotWritable);
        }
        return Way::Map { frame, flags };
    }
    if count == 1 {
        return Way::Map { frame, flags };
    }
    if write {
        return Way::Copy { frame };
    }
    Way::Map {
        frame,
        flags: flags.read_only(),
    }
}

// A write to a page that is mapped and not writable, in a region that may be written.
fn copied_way(frame: PhysFrame, count: u64) -> Way
    ensures { result ≡ copied_way frame count }
{
    if count == 1 {
        return Way::Restore;
    }
    Way::Copy { frame }
}

// A write to a page that is mapped and not writable.
fn mapped_way(region: Region, backed: Backed) -> Way
    ensures { result ≡ mapped_way region backed }
{
    if !region.flags.is_writable() {
        return Way::Refuse(Refusal::NotWritable);
    }
    match backed {
        Backed::ByEntry { frame, count, .. } => copied_way(frame, count),
        Backed::ByRange { frame, count } => copied_way(frame, count),
        Backed::Unbacked => Way::Refuse(Refusal::MapFailed),
    }
}

// A page that is not mapped and that nothing backs: a new frame, but none for a write that the region forbids.
fn unbacked_way(region: Region, write: bool) -> Way
    ensures { result ≡ unbacked_way region write }
{
    if region.flags.is_writable() {
        return Way::Fill;
    }
    if write {
        return Way::Refuse(Refusal::NotWritable);
    }
    Way::Fill
}

// A page that is not mapped: it is mapped to what backs it, or to a new frame.
fn unmapped_way(region: Region, backed: Backed, write: bool) -> Way
    ensures { result ≡ unmapped_way region backed write }
{
    match backed {
        Backed::ByEntry { frame, count, .. } => backed_way(region, frame, count, write),
        Backed::ByRange { frame, count } => backed_way(region, frame, count, write),
        Backed::Unbacked => unbacked_way(region, write),
    }
}

// A page of a Private or FileBacked region.
fn private_way(region: Region, page: Option<Mapping>, backed: Backed, write: bool) -> Way
    ensures { result ≡ private_way region page backed write }
{
    if !region.flags.is_user_accessible() {
        return Way::Refuse(Refusal::NotAccessible);
    }
    if page.is_none() {
        return unmapped_way(region, backed, write);
    }
    if well_mapped(page, write) {
        return Way::Already;
    }
    mapped_way(region, backed)
}

// Whether the way hangs on what backs the page, which takes a look through all entries: not where the region refuses, nor where
// the page is mapped well enough.
fn asks_backing(region: Region, page: Option<Mapping>, write: bool) -> bool
    ensures { result ≡ asks_backing region page write }
{
    if !region.flags.is_user_accessible() {
        return false;
    }
    if well_mapped(page, write) {
        return false;
    }
    if !write {
        return true;
    }
    region.flags.is_writable()
}

// A page of a Shared region.
fn shared_way(page: Option<Mapping>, backed: Backed) -> Way
    ensures { result ≡ shared_way page backed }
{
    if page.is_some() {
        return Way::Already;
    }
    // all four flags
    let all = PageTableFlags(0x8000_0000_0000_0007);
    match backed {
        Backed::ByEntry { frame, .. } => Way::Map { frame, flags: all },
        Backed::ByRange { frame, .. } => Way::Map { frame, flags: all },
        Backed::Unbacked => Way::Refuse(Refusal::MapFailed),
    }
}

// The way of a fault at a page of the region in a slot, of a sound machine.
pub fn fault_way(words: &[u64], process: usize, slot: usize, page: Page, write: bool) -> Way
    requires words_len { length words.now ≡ word_count }
    requires sound_words { SoundWords words.now }
    requires process_bound { process < 8 }
    requires slot_bound { slot < 64 }
    ensures { result ≡ fault_way (machine words.now) process slot page.0 write }
{
    let region = region_in(words, process, slot);
    let mapped = translate(words, process, page);
    if region.kind == SHARED {
        let backed = backing_of(words, process, slot, page);
        return shared_way(mapped, backed);
    }
    if !asks_backing(region, mapped, write) {
        return private_way(region, mapped, Backed::Unbacked, write);
    }
    let backed = backing_of(words, process, slot, page);
    private_way(region, mapped, backed, write)
}
