// Loads and stores of one byte.
#![tactic(auto)]

ghost use Rattle.std.specs.Prelude.{◌≡◌, length};
ghost use Rattle.model.specs.Layout.{word_count, machine};
ghost use Rattle.model.specs.Answers.{first_of};
ghost use Rattle.model.specs.Refusals.{access_refusals};
ghost use Rattle.model.specs.Access.{page_at, byte_at};
ghost use Rattle.model.specs.Calls.{load, store};
ghost use Rattle.rows.specs.LentMemory.{words_alone, SoundWords, SoundFrames, Does, OnFrames};
ghost use Rattle.access.specs.Granted.{access_by, allowed};

use address::{Page, PageTableFlags, PhysAddr, VirtAddr};
use answers::Refusal;
use frames::{byte_at, put_byte};
use lookup::search::is_open;
use paging::search::translate;

// Whether a page's flags allow a load, or a store.
fn is_allowed(flags: PageTableFlags, write: bool) -> bool
    ensures { result ≡ allowed flags.0 write }
{
    if !flags.is_user_accessible() {
        return false;
    }
    if !write {
        return true;
    }
    flags.is_writable()
}

// The byte at an address, of a sound machine.
fn granted_byte(
    words: &[u64],
    process: u64,
    addr: VirtAddr,
    write: bool,
) -> Result<PhysAddr, Refusal>
    requires words_len { length words.now ≡ word_count }
    requires sound_words { SoundWords words.now }
    ensures { result ≡ access_by (first_of (access_refusals (words_alone words.now) process addr.0 write)) (byte_at (page_at (machine words.now) process addr.0) addr.0) }
{
    if !is_open(words, process) {
        return Err(Refusal::NoProcess);
    }
    if !addr.is_user() {
        return Err(Refusal::BadAddress);
    }
    let page = Page::containing_address(addr);
    let Some(row) = translate(words, process as usize, page) else {
        return Err(Refusal::Denied);
    };
    if !is_allowed(row.flags, write) {
        return Err(Refusal::Denied);
    }
    Ok(row.frame.address_at(addr.page_offset()))
}

// The byte that a load gives, of a sound machine.
pub fn load_core(words: &[u64], frames: &[u8], process: u64, addr: VirtAddr) -> Result<u8, Refusal>
    requires words_len { length words.now ≡ word_count }
    requires sound_frames { SoundFrames words.now frames.now }
    ensures { OnFrames (λ s. load s process addr.0) words.now frames.now result }
{
    let place = granted_byte(words, process, addr, false)?;
    Ok(byte_at(frames, place))
}

// Stores a byte, of a sound machine.
pub fn store_core(
    words: &[u64],
    frames: &mut [u8],
    process: u64,
    addr: VirtAddr,
    byte: u8,
) -> Result<(), Refusal>
    requires words_len { length words.now ≡ word_count }
    requires sound_frames { SoundFrames words.now frames.old }
    ensures { Does (λ s. store s process addr.0 byte) words.now frames.old words.now frames.new result }
{
    let place = granted_byte(words, process, addr, true)?;
    put_byte(frames, place, byte);
    Ok(())
}
