// Calls that change the tables alone: removal, protection, pins, carve.
ghost use Rattle.std.specs.Prelude.{◌≡◌, Err};
ghost use Rattle.model.specs.declared.Call.TheVariants as code;
ghost use Rattle.model.specs.Answers.{of_done};
ghost use Rattle.model.specs.Calls as model;
ghost use Rattle.model.specs.Meant.{meant};
ghost use Rattle.model.specs.Run.{call};
ghost use Rattle.calls.specs.Answered.{answer_on, Leaves};
ghost use Rattle.calls.specs.Ran.{reply_on};
ghost use Rattle.machine_c.specs.Out.{Told, LeavesOut};

use address::VirtAddr;
use call_rows::told::{tell_counted, tell_done};

// Removes the region at an address; a pinned one goes with its last pin.
#[unsafe(no_mangle)]
pub extern "C" fn machine_remove(
    words: &mut [u64],
    frames: &[u8],
    files: &[u8],
    process: u64,
    addr: u64,
) -> u64
    ensures value { result ≡ (of_done (answer_on Err (λ s. model.remove s process addr) words.old frames.now files.now)).number }
    ensures leaves { Leaves (λ s. model.remove s process addr) words.old frames.now files.now words.new frames.now }
{
    tell_done(calls::remove(words, frames, files, process, VirtAddr(addr)))
}

// Removes all regions of a process.
#[unsafe(no_mangle)]
pub extern "C" fn machine_clear(words: &mut [u64], frames: &[u8], files: &[u8], process: u64) -> u64
    ensures value { result ≡ (of_done (answer_on Err (λ s. model.clear s process) words.old frames.now files.now)).number }
    ensures leaves { Leaves (λ s. model.clear s process) words.old frames.now files.now words.new frames.now }
{
    tell_done(calls::clear(words, frames, files, process))
}

// Gives the region at an address other flags.
#[unsafe(no_mangle)]
pub extern "C" fn machine_protect(
    words: &mut [u64],
    frames: &[u8],
    files: &[u8],
    process: u64,
    addr: u64,
    flags: u64,
) -> u64
    ensures value { result ≡ (of_done (answer_on Err (λ s. model.protect s process addr flags) words.old frames.now files.now)).number }
    ensures leaves { Leaves (λ s. model.protect s process addr flags) words.old frames.now files.now words.new frames.now }
{
    tell_done(calls::protect(words, frames, files, process, VirtAddr(addr), flags))
}

// Pins the region at an address.
#[unsafe(no_mangle)]
pub extern "C" fn machine_pin(
    words: &mut [u64],
    frames: &[u8],
    files: &[u8],
    process: u64,
    addr: u64,
) -> u64
    ensures value { result ≡ (of_done (answer_on Err (λ s. model.pin s process addr) words.old frames.now files.now)).number }
    ensures leaves { Leaves (λ s. model.pin s process addr) words.old frames.now files.now words.new frames.now }
{
    tell_done(calls::pin(words, frames, files, process, VirtAddr(addr)))
}

// Takes back a pin of the region at an address, attached or detached.
#[unsafe(no_mangle)]
pub extern "C" fn machine_unpin(
    words: &mut [u64],
    frames: &[u8],
    files: &[u8],
    process: u64,
    addr: u64,
) -> u64
    ensures value { result ≡ (of_done (answer_on Err (λ s. model.unpin s process addr) words.old frames.now files.now)).number }
    ensures leaves { Leaves (λ s. model.unpin s process addr) words.old frames.now files.now words.new frames.now }
{
    tell_done(calls::unpin(words, frames, files, process, VirtAddr(addr)))
}

// Splits regions at the bounds of a range: the starts of those inside it, as machine_regions gives them.
#[unsafe(no_mangle)]
pub extern "C" fn machine_carve(
    words: &mut [u64],
    frames: &[u8],
    files: &[u8],
    process: u64,
    start: u64,
    end: u64,
    out: &mut [u64],
) -> u64
    ensures told { Told (reply_on (code.Carve process start end) words.old frames.now files.now) 65 result out.old out.new }
    ensures leaves_out { LeavesOut (λ s. call (meant (code.Carve process start end)) s) 65 out.old words.old frames.now files.now words.new frames.now }
{
    if out.len() != 65 {
        return 1;
    }
    let counted = calls::carve(words, frames, files, &mut out[1..], process, start, end);
    tell_counted(counted, out)
}
