// Loads and stores of one byte.
ghost use Rattle.std.specs.Prelude.{◌≡◌, Err};
ghost use Rattle.model.specs.Calls.{load, store};
ghost use Rattle.calls.specs.Answered.{answer_on, Leaves};

use access::{load_core, store_core};
use address::VirtAddr;
use answers::Refusal;
use soundness::{check_sound, is_sound};

// The byte at an address of a process that may read it there.
pub fn load(
    words: &[u64],
    frames: &[u8],
    files: &[u8],
    process: u64,
    addr: VirtAddr,
) -> Result<u8, Refusal>
    ensures { result ≡ answer_on Err (λ s. load s process addr.0) words.now frames.now files.now }
{
    check_sound(words, frames, files)?;
    load_core(words, frames, process, addr)
}

// Puts a byte at an address of a process that may write it there; nothing else changes.
pub fn store(
    words: &[u64],
    frames: &mut [u8],
    files: &[u8],
    process: u64,
    addr: VirtAddr,
    byte: u8,
) -> Result<(), Refusal>
    ensures value { result ≡ answer_on Err (λ s. store s process addr.0 byte) words.now frames.old files.now }
    ensures leaves { Leaves (λ s. store s process addr.0 byte) words.now frames.old files.now words.now frames.new }
{
    // No `?`: the must-fail edit `store_into_no_machine` answers that it is done here.
    if !is_sound(words, &frames[..], files) {
        return Err(Refusal::BadTable);
    }
    store_core(words, frames, process, addr, byte)
}
