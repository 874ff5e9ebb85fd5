// Calls that change frames too: faults, populate, clones.
ghost use Rattle.std.specs.Prelude.{◌≡◌, not, eqb, Err};
ghost use Rattle.model.specs.Answers.{of_done};
ghost use Rattle.model.specs.Calls as model;
ghost use Rattle.calls.specs.Answered.{answer_on, Leaves};

use address::VirtAddr;
use call_rows::told::tell_done;

// A fault at an address, a write where `write` is not 0.
#[unsafe(no_mangle)]
pub extern "C" fn machine_fault(
    words: &mut [u64],
    frames: &mut [u8],
    files: &[u8],
    process: u64,
    addr: u64,
    write: u64,
) -> u64
    ensures value { result ≡ (of_done (answer_on Err (λ s. model.fault s process addr (not (eqb write 0))) words.old frames.old files.now)).number }
    ensures leaves { Leaves (λ s. model.fault s process addr (not (eqb write 0))) words.old frames.old files.now words.new frames.new }
{
    tell_done(calls::fault(words, frames, files, process, VirtAddr(addr), write != 0))
}

// Faults over the pages of `len` bytes from an address on.
#[unsafe(no_mangle)]
pub extern "C" fn machine_populate(
    words: &mut [u64],
    frames: &mut [u8],
    files: &[u8],
    process: u64,
    addr: u64,
    len: u64,
    write: u64,
) -> u64
    ensures value { result ≡ (of_done (answer_on Err (λ s. model.populate s process addr len (not (eqb write 0))) words.old frames.old files.now)).number }
    ensures leaves { Leaves (λ s. model.populate s process addr len (not (eqb write 0))) words.old frames.old files.now words.new frames.new }
{
    tell_done(calls::populate(
        words,
        frames,
        files,
        process,
        VirtAddr(addr),
        len,
        write != 0,
    ))
}

// Populates every private region of a process that fork copies.
#[unsafe(no_mangle)]
pub extern "C" fn machine_eager(
    words: &mut [u64],
    frames: &mut [u8],
    files: &[u8],
    process: u64,
) -> u64
    ensures value { result ≡ (of_done (answer_on Err (λ s. model.eager s process) words.old frames.old files.now)).number }
    ensures leaves { Leaves (λ s. model.eager s process) words.old frames.old files.now words.new frames.new }
{
    tell_done(calls::eager(words, frames, files, process))
}

// Clones the region at an address into another process.
#[unsafe(no_mangle)]
pub extern "C" fn machine_clone_region(
    words: &mut [u64],
    frames: &mut [u8],
    files: &[u8],
    process: u64,
    addr: u64,
    target: u64,
) -> u64
    ensures value { result ≡ (of_done (answer_on Err (λ s. model.clone_region s process addr target) words.old frames.old files.now)).number }
    ensures leaves { Leaves (λ s. model.clone_region s process addr target) words.old frames.old files.now words.new frames.new }
{
    tell_done(calls::clone_region(words, frames, files, process, VirtAddr(addr), target))
}

// Clones a process into another that is open.
#[unsafe(no_mangle)]
pub extern "C" fn machine_clone(
    words: &mut [u64],
    frames: &mut [u8],
    files: &[u8],
    process: u64,
    target: u64,
) -> u64
    ensures value { result ≡ (of_done (answer_on Err (λ s. model.clone s process target) words.old frames.old files.now)).number }
    ensures leaves { Leaves (λ s. model.clone s process target) words.old frames.old files.now words.new frames.new }
{
    tell_done(calls::clone(words, frames, files, process, target))
}
