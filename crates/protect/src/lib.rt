// The core of protect, on a machine that has been tested sound.
#![tactic(auto)]

ghost use Rattle.std.specs.Prelude.{◌≡◌, ◌<◌, length, get_or, set};
ghost use Rattle.model.specs.Layout.{word_count, machine};
ghost use Rattle.model.specs.Machine.{no_mapping};
ghost use Rattle.model.specs.Protect.{holders_by, page_flags, with_flags};
ghost use Rattle.model.specs.Calls as calls;
ghost use Rattle.rows.specs.LentMemory.{SoundWords, DoesWords};
ghost use Rattle.paging.specs.ProcessRows.{rows_of, with_rows};
ghost use Rattle.remap.specs.Remapped.{remapped};
ghost use Rattle.protect.specs.Protects.{RangeFits, protected_in, Protected};
ghost use Rattle.protect.specs.ProtectCall.{protect_by};

use address::{Page, PageTableFlags, VirtAddr};
use answers::Refusal;
use lookup::attached::region_for;
use lookup::backed::backing_of;
use lookup::search::is_open;
use model::{Backed, Region, SHARED, SLOTS};
use paging::mappings::put_row;
use paging::search::{mapped_count, row_at};
use regions::slot::region_in;
use remap::{maps_in, reflag};
use rows::slots::put_region;

// How many hold what backs a page; of an unbacked page none.
fn holders_by(backed: Backed) -> u64
    ensures { result ≡ holders_by backed }
{
    match backed {
        Backed::ByEntry {
            row: _,
            frame: _,
            count,
        } => count,
        Backed::ByRange { frame: _, count } => count,
        Backed::Unbacked => 0,
    }
}

// The flags that a page gets: without WRITABLE where holders exceed one.
fn page_flags(
    words: &[u64],
    process: usize,
    slot: usize,
    page: Page,
    flags: PageTableFlags,
) -> PageTableFlags
    requires words_len { length words.now ≡ word_count }
    requires process_bound { process < 8 }
    requires slot_bound { slot < 64 }
    requires range_fits { RangeFits (machine words.now) process slot }
    ensures { result.0 ≡ page_flags (machine words.now) process slot flags.0 page.0 }
{
    let backed = backing_of(words, process, slot, page);
    if 1 < holders_by(backed) {
        return flags.read_only();
    }
    flags
}

// Gives a row whose page starts inside the region in a slot the flags that it gets.
fn protect_row(words: &mut [u64], process: usize, slot: usize, i: usize, flags: PageTableFlags)
    requires words_len { length words.old ≡ word_count }
    requires process_bound { process < 8 }
    requires slot_bound { slot < 64 }
    requires i_bound { i < 128 }
    requires range_fits { RangeFits (machine words.old) process slot }
    ensures { machine words.new ≡ with_rows (machine words.old) process (set (rows_of (machine words.old) process) i (protected_in (machine words.old) process slot flags.0 (get_or (rows_of (machine words.old) process) i no_mapping))) }
{
    let region = region_in(&words[..], process, slot);
    let row = row_at(&words[..], process, i);
    let page = row.page;
    if maps_in(region, page) {
        let other = page_flags(&words[..], process, slot, page, flags);
        put_row(words, process, i, reflag(row, other));
        return;
    }
}

// Gives the mapped pages of the region in a slot the flags that they get.
fn protect_rows(words: &mut [u64], process: usize, slot: usize, flags: PageTableFlags)
    requires words_len { length words.old ≡ word_count }
    requires process_bound { process < 8 }
    requires slot_bound { slot < 64 }
    requires range_fits { RangeFits (machine words.old) process slot }
    ensures { machine words.new ≡ remapped (protected_in (machine words.old) process slot flags.0) (machine words.old) process }
{
    let n = mapped_count(&words[..], process);
    for i in 0..n {
        protect_row(words, process, slot, i, flags);
    }
}

// A region's row with other flags.
fn with_flags(region: Region, flags: PageTableFlags) -> Region
    ensures { result ≡ with_flags region flags.0 }
{
    Region { flags, ..region }
}

// Replaces a region's flags and remaps its mapped pages: the Rust's set_protection.
fn set_protection(words: &mut [u64], process: usize, slot: usize, flags: PageTableFlags)
    requires words_len { length words.old ≡ word_count }
    requires process_bound { process < 8 }
    requires slot_bound { slot < 64 }
    requires range_fits { RangeFits (machine words.old) process slot }
    ensures { Protected (machine words.old) process slot flags.0 (machine words.new) }
{
    let region = region_in(&words[..], process, slot);
    protect_rows(words, process, slot, flags);
    put_region(words, process * SLOTS + slot, with_flags(region, flags));
}

// The region whose flags are to be replaced, or why it cannot be: the refusals in the order of their numbers.
fn protectable(words: &[u64], process: u64, addr: VirtAddr, flags: u64) -> Result<usize, Refusal>
    requires { length words.now ≡ word_count }
    ensures { result ≡ protect_by words.now process addr.0 flags }
{
    if !is_open(words, process) {
        return Err(Refusal::NoProcess);
    }
    if !addr.is_user() {
        return Err(Refusal::BadAddress);
    }
    if PageTableFlags::from_bits(flags).is_none() {
        return Err(Refusal::BadFlags);
    }
    let Some(slot) = region_for(words, process as usize, addr) else {
        return Err(Refusal::NoRegion);
    };
    let region = region_in(words, process as usize, slot);
    if region.kind == SHARED {
        return Err(Refusal::UnsupportedRegion);
    }
    Ok(slot)
}

// Replaces the flags of the region at an address: the core of the call.
pub fn protect_core(
    words: &mut [u64],
    process: u64,
    addr: VirtAddr,
    flags: u64,
) -> Result<(), Refusal>
    requires words_len { length words.old ≡ word_count }
    requires sound_words { SoundWords words.old }
    ensures { DoesWords (λ s. calls.protect s process addr.0 flags) words.old words.new result }
{
    let slot = protectable(&words[..], process, addr, flags)?;
    set_protection(words, process as usize, slot, PageTableFlags(flags));
    Ok(())
}
