// A process opened.
ghost use Rattle.std.specs.Prelude.{◌≡◌, ◌<◌, length, set};
ghost use Rattle.model.specs.Layout.{word_count, machine};
ghost use Rattle.model.specs.Machine.{with_processes};
ghost use Rattle.model.specs.Calls.{open_process, opened_row};
ghost use Rattle.rows.specs.LentMemory.{DoesWords};
ghost use Rattle.process.specs.Opening.{bad_arena};

use address::{PAGE_SIZE, USER_END, VirtAddr};
use answers::Refusal;
use lookup::search::closed_process;
use model::Process;
use rows::processes::put_process;

// Puts the row of an open process with nothing in its lists.
fn open_row(words: &mut [u64], process: usize, start: VirtAddr, size: u64)
    requires words_len { length words.old ≡ word_count }
    requires process_bound { process < 8 }
    ensures { machine words.new ≡ with_processes (machine words.old) (set (machine words.old).processes process (opened_row start.0 size)) }
{
    let row = Process {
        opened: 1,
        start,
        size,
        attached: 0,
        mapped: 0,
    };
    put_process(words, process, row);
}

// Whether a range is no arena: not page-aligned at both ends, or past the user addresses.
fn is_bad_arena(start: VirtAddr, size: u64) -> bool
    ensures { result ≡ bad_arena start.0 size }
{
    if !start.is_aligned() {
        return true;
    }
    if size % PAGE_SIZE != 0 {
        return true;
    }
    if USER_END < start.0 {
        return true;
    }
    USER_END - start.0 < size
}

// Opens the lowest closed process, of a sound machine.
pub fn open_core(words: &mut [u64], start: VirtAddr, size: u64) -> Result<u64, Refusal>
    requires { length words.old ≡ word_count }
    ensures { DoesWords (λ s. open_process s start.0 size) words.old words.new result }
{
    if !start.is_user() {
        return Err(Refusal::BadAddress);
    }
    if is_bad_arena(start, size) {
        return Err(Refusal::BadRange);
    }
    let process = closed_process(&words[..]).ok_or(Refusal::TableFull)?;
    open_row(words, process, start, size);
    Ok(process as u64)
}
