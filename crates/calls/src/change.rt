// Regions removed, pinned, unpinned and protected.
ghost use Rattle.std.specs.Prelude.{◌≡◌, Err};
ghost use Rattle.model.specs.Calls.{remove, clear, pin, unpin, protect};
ghost use Rattle.calls.specs.Answered.{answer_on, Leaves};

use address::VirtAddr;
use answers::Refusal;
use pins::{pin_core, unpin_core};
use protect::protect_core;
use remove::cores::{clear_core, remove_core};
use soundness::check_sound;

// Removes the region at an address; a pinned one stays, detached, until its last unpin.
pub fn remove(
    words: &mut [u64],
    frames: &[u8],
    files: &[u8],
    process: u64,
    addr: VirtAddr,
) -> Result<(), Refusal>
    ensures value { result ≡ answer_on Err (λ s. remove s process addr.0) words.old frames.now files.now }
    ensures leaves { Leaves (λ s. remove s process addr.0) words.old frames.now files.now words.new frames.now }
{
    check_sound(&words[..], frames, files)?;
    remove_core(words, process, addr)
}

// Removes all regions of a process.
pub fn clear(words: &mut [u64], frames: &[u8], files: &[u8], process: u64) -> Result<(), Refusal>
    ensures value { result ≡ answer_on Err (λ s. clear s process) words.old frames.now files.now }
    ensures leaves { Leaves (λ s. clear s process) words.old frames.now files.now words.new frames.now }
{
    check_sound(&words[..], frames, files)?;
    clear_core(words, process)
}

// Pins the region at an address.
pub fn pin(
    words: &mut [u64],
    frames: &[u8],
    files: &[u8],
    process: u64,
    addr: VirtAddr,
) -> Result<(), Refusal>
    ensures value { result ≡ answer_on Err (λ s. pin s process addr.0) words.old frames.now files.now }
    ensures leaves { Leaves (λ s. pin s process addr.0) words.old frames.now files.now words.new frames.now }
{
    check_sound(&words[..], frames, files)?;
    pin_core(words, process, addr)
}

// Unpins the region at an address, attached or detached; the last unpin of a detached one ends it.
pub fn unpin(
    words: &mut [u64],
    frames: &[u8],
    files: &[u8],
    process: u64,
    addr: VirtAddr,
) -> Result<(), Refusal>
    ensures value { result ≡ answer_on Err (λ s. unpin s process addr.0) words.old frames.now files.now }
    ensures leaves { Leaves (λ s. unpin s process addr.0) words.old frames.now files.now words.new frames.now }
{
    check_sound(&words[..], frames, files)?;
    unpin_core(words, process, addr)
}

// Replaces the flags of the region at an address and remaps its mapped pages.
pub fn protect(
    words: &mut [u64],
    frames: &[u8],
    files: &[u8],
    process: u64,
    addr: VirtAddr,
    flags: u64,
) -> Result<(), Refusal>
    ensures value { result ≡ answer_on Err (λ s. protect s process addr.0 flags) words.old frames.now files.now }
    ensures leaves { Leaves (λ s. protect s process addr.0 flags) words.old frames.now files.now words.new frames.now }
{
    check_sound(&words[..], frames, files)?;
    protect_core(words, process, addr, flags)
}
