// Creation of regions: private, lazy or eager; backed by a file; shared.
ghost use Rattle.std.specs.Prelude.{◌≡◌, Err};
ghost use Rattle.model.specs.Create.{is_copy, is_eager};
ghost use Rattle.model.specs.Calls.{create_private, create_file, create_shared};
ghost use Rattle.calls.specs.Answered.{answer_on, Leaves};

use address::VirtAddr;
use answers::Refusal;
use model::{ForkPolicy, Place, Population};
use soundness::check_sound;

// A Private region, lazy or eager.
pub fn create_private(
    words: &mut [u64],
    frames: &mut [u8],
    files: &[u8],
    process: u64,
    place: Place,
    population: Population,
    size: u64,
    flags: u64,
    fork: ForkPolicy,
    thread: bool,
) -> Result<VirtAddr, Refusal>
    ensures value { result ≡ answer_on Err (λ s. create_private s process place (is_eager population) size flags (is_copy fork) thread) words.old frames.old files.now }
    ensures leaves { Leaves (λ s. create_private s process place (is_eager population) size flags (is_copy fork) thread) words.old frames.old files.now words.new frames.new }
{
    check_sound(&words[..], &frames[..], files)?;
    create::kinds::create_private(
        words, frames, process, place, population, size, flags, fork, thread,
    )
}

// A FileBacked region.
pub fn create_file(
    words: &mut [u64],
    frames: &mut [u8],
    files: &[u8],
    process: u64,
    place: Place,
    size: u64,
    flags: u64,
    fork: ForkPolicy,
    thread: bool,
    file: u64,
    offset: u64,
    len: u64,
) -> Result<VirtAddr, Refusal>
    ensures value { result ≡ answer_on Err (λ s. create_file s process place size flags (is_copy fork) thread file offset len) words.old frames.old files.now }
    ensures leaves { Leaves (λ s. create_file s process place size flags (is_copy fork) thread file offset len) words.old frames.old files.now words.new frames.new }
{
    check_sound(&words[..], &frames[..], files)?;
    create::kinds::create_file(
        words, frames, process, place, size, flags, fork, thread, file, offset, len,
    )
}

// A Shared region.
pub fn create_shared(
    words: &mut [u64],
    frames: &mut [u8],
    files: &[u8],
    process: u64,
    place: Place,
    size: u64,
) -> Result<VirtAddr, Refusal>
    ensures value { result ≡ answer_on Err (λ s. create_shared s process place size) words.old frames.old files.now }
    ensures leaves { Leaves (λ s. create_shared s process place size) words.old frames.old files.now words.new frames.new }
{
    check_sound(&words[..], &frames[..], files)?;
    create::kinds::create_shared(words, frames, process, place, size)
}
