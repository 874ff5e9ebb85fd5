// Clones: of a region, and of a process.
ghost use Rattle.std.specs.Prelude.{◌≡◌, Err};
ghost use Rattle.model.specs.Calls.{clone_region, clone};
ghost use Rattle.calls.specs.Answered.{answer_on, Leaves};

use address::VirtAddr;
use answers::Refusal;
use clone_process::clone_core;
use clone_region::clone_region_core;
use soundness::check_sound;

// Clones the region at an address into a process, at the same address.
pub fn clone_region(
    words: &mut [u64],
    frames: &mut [u8],
    files: &[u8],
    process: u64,
    addr: VirtAddr,
    target: u64,
) -> Result<(), Refusal>
    ensures value { result ≡ answer_on Err (λ s. clone_region s process addr.0 target) words.old frames.old files.now }
    ensures leaves { Leaves (λ s. clone_region s process addr.0 target) words.old frames.old files.now words.new frames.new }
{
    check_sound(&words[..], &frames[..], files)?;
    clone_region_core(words, frames, process, addr, target)
}

// Clones every region of a process that is not per-thread into another, in list order, up to the first refusal.
pub fn clone(
    words: &mut [u64],
    frames: &mut [u8],
    files: &[u8],
    process: u64,
    target: u64,
) -> Result<(), Refusal>
    ensures value { result ≡ answer_on Err (λ s. clone s process target) words.old frames.old files.now }
    ensures leaves { Leaves (λ s. clone s process target) words.old frames.old files.now words.new frames.new }
{
    check_sound(&words[..], &frames[..], files)?;
    clone_core(words, frames, process, target)
}
