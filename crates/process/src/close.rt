// A process closed, unless a pin stands.
ghost use Rattle.std.specs.Prelude.{◌≡◌, ◌<◌, length};
ghost use Rattle.model.specs.Layout.{word_count, machine};
ghost use Rattle.model.specs.Machine.{no_process};
ghost use Rattle.model.specs.Remove.{pin_stands};
ghost use Rattle.model.specs.Calls as calls;
ghost use Rattle.rows.specs.LentMemory.{DoesWords};
ghost use Rattle.remove.specs.Cleared.{Closed};

use address::VirtAddr;
use answers::Refusal;
use lookup::search::is_open;
use model::{Process, SLOTS};
use remove::clear::clear;
use rows::processes::put_process;
use rows::slots::region_at;

// A closed process's row.
fn no_process() -> Process
    ensures { result ≡ no_process }
{
    Process {
        opened: 0,
        start: VirtAddr(0),
        size: 0,
        attached: 0,
        mapped: 0,
    }
}

// Whether a region of a process is pinned, attached or detached.
pub fn pin_stands(words: &[u64], process: usize) -> bool
    requires words_len { length words.now ≡ word_count }
    requires process_bound { process < 8 }
    ensures { result ≡ pin_stands (machine words.now) process }
{
    for i in 0..SLOTS {
        let region = region_at(words, process * SLOTS + i);
        if 0 < region.pins {
            return true;
        }
    }
    false
}

// Clears a process and frees its row.
pub fn close(words: &mut [u64], process: usize)
    requires words_len { length words.old ≡ word_count }
    requires process_bound { process < 8 }
    ensures { Closed (machine words.old) process (machine words.new) }
{
    clear(words, process);
    put_process(words, process, no_process());
}

// Closes a process: the core of the call.
pub fn close_core(words: &mut [u64], process: u64) -> Result<(), Refusal>
    requires { length words.old ≡ word_count }
    ensures { DoesWords (λ s. calls.close s process) words.old words.new result }
{
    if !is_open(&words[..], process) {
        return Err(Refusal::NoProcess);
    }
    if pin_stands(&words[..], process as usize) {
        return Err(Refusal::InUse);
    }
    close(words, process as usize);
    Ok(())
}
