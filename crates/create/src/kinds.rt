// Creation of each kind of region, of a sound machine.
ghost use Rattle.std.specs.Prelude.{◌≡◌, length};
ghost use Rattle.model.specs.Layout.{word_count};
ghost use Rattle.model.specs.Create.{is_copy, is_eager};
ghost use Rattle.model.specs.Calls.{create_private, create_file, create_shared};
ghost use Rattle.rows.specs.LentMemory.{SoundFrames, Does};

use crate::make::create;
use crate::wanted::{file_row, private_row, shared_row};
use address::VirtAddr;
use answers::Refusal;
use model::{ForkPolicy, Place, Population};

// A Private region, lazy or eager.
pub fn create_private(
    words: &mut [u64],
    frames: &mut [u8],
    process: u64,
    place: Place,
    population: Population,
    size: u64,
    flags: u64,
    fork: ForkPolicy,
    thread: bool,
) -> Result<VirtAddr, Refusal>
    requires words_len { length words.old ≡ word_count }
    requires sound_frames { SoundFrames words.old frames.old }
    ensures { Does (λ s. create_private s process place (is_eager population) size flags (is_copy fork) thread) words.old frames.old words.new frames.new result }
{
    create(
        words,
        frames,
        process,
        place,
        population.is_eager(),
        private_row(size, flags, fork, thread),
    )
}

// A FileBacked region.
pub fn create_file(
    words: &mut [u64],
    frames: &mut [u8],
    process: u64,
    place: Place,
    size: u64,
    flags: u64,
    fork: ForkPolicy,
    thread: bool,
    file: u64,
    offset: u64,
    len: u64,
) -> Result<VirtAddr, Refusal>
    requires words_len { length words.old ≡ word_count }
    requires sound_frames { SoundFrames words.old frames.old }
    ensures { Does (λ s. create_file s process place size flags (is_copy fork) thread file offset len) words.old frames.old words.new frames.new result }
{
    create(
        words,
        frames,
        process,
        place,
        false,
        file_row(size, flags, fork, thread, file, offset, len),
    )
}

// A Shared region.
pub fn create_shared(
    words: &mut [u64],
    frames: &mut [u8],
    process: u64,
    place: Place,
    size: u64,
) -> Result<VirtAddr, Refusal>
    requires words_len { length words.old ≡ word_count }
    requires sound_frames { SoundFrames words.old frames.old }
    ensures { Does (λ s. create_shared s process place size) words.old frames.old words.new frames.new result }
{
    create(words, frames, process, place, false, shared_row(size))
}
