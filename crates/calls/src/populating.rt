// Faults over many pages: a range populated, or every region that is copied eagerly.
ghost use Rattle.std.specs.Prelude.{◌≡◌, Err};
ghost use Rattle.model.specs.Calls.{populate, eager};
ghost use Rattle.calls.specs.Answered.{answer_on, Leaves};

use address::VirtAddr;
use answers::Refusal;
use populate::populate_core;
use populate_eager::eager_core;
use soundness::check_sound;

// A fault at every page of `len` bytes from an address on that is in a region and not mapped well enough, up to the first refusal.
pub fn populate(
    words: &mut [u64],
    frames: &mut [u8],
    files: &[u8],
    process: u64,
    addr: VirtAddr,
    len: u64,
    write: bool,
) -> Result<(), Refusal>
    ensures value { result ≡ answer_on Err (λ s. populate s process addr.0 len write) words.old frames.old files.now }
    ensures leaves { Leaves (λ s. populate s process addr.0 len write) words.old frames.old files.now words.new frames.new }
{
    check_sound(&words[..], &frames[..], files)?;
    populate_core(words, frames, files, process, addr, len, write)
}

// Every Private CopyEager region of a process populated for writing, in list order, up to the first refusal.
pub fn eager(
    words: &mut [u64],
    frames: &mut [u8],
    files: &[u8],
    process: u64,
) -> Result<(), Refusal>
    ensures value { result ≡ answer_on Err (λ s. eager s process) words.old frames.old files.now }
    ensures leaves { Leaves (λ s. eager s process) words.old frames.old files.now words.new frames.new }
{
    check_sound(&words[..], &frames[..], files)?;
    eager_core(words, frames, files, process)
}
