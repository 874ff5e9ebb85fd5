// The row of a process with another number of attached regions.
ghost use Rattle.std.specs.Prelude.{◌≡◌, ◌<◌, length, set};
ghost use Rattle.model.specs.Layout.{word_count, machine};
ghost use Rattle.model.specs.Machine.{process_at, attached_of, with_processes};

use model::Process;
use rows::processes::{process_at, put_process};

// Puts the number of a process's attached regions.
pub fn put_attached(words: &mut [u64], process: usize, count: u64)
    requires words_len { length words.old ≡ word_count }
    requires process_bound { process < 8 }
    ensures { machine words.new ≡ with_processes (machine words.old) (set (machine words.old).processes process (attached_of (process_at (machine words.old) process) count)) }
{
    let p = process_at(&words[..], process);
    let row = Process {
        attached: count,
        ..p
    };
    put_process(words, process, row);
}
