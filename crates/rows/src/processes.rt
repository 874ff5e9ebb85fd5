// The processes: 8 rows of 5 words, from word 0.
ghost use Rattle.std.specs.Prelude.{◌≡◌, ◌<◌, length, get_or, set};
ghost use Rattle.model.specs.Layout.{word_count, machine};
ghost use Rattle.model.specs.Machine.{no_process, with_processes};

use crate::PROCESS_WORDS;
use address::VirtAddr;
use model::Process;

// The row of a process.
pub fn process_at(words: &[u64], i: usize) -> Process
    requires words_len { length words.now ≡ word_count }
    requires i_bound { i < 8 }
    ensures { result ≡ get_or (machine words.now).processes i no_process }
{
    let at = i * PROCESS_WORDS;
    Process {
        opened: words[at],
        start: VirtAddr(words[at + 1]),
        size: words[at + 2],
        attached: words[at + 3],
        mapped: words[at + 4],
    }
}

// Puts a process's row.
pub fn put_process(words: &mut [u64], i: usize, row: Process)
    requires words_len { length words.old ≡ word_count }
    requires i_bound { i < 8 }
    ensures { machine words.new ≡ with_processes (machine words.old) (set (machine words.old).processes i row) }
{
    let at = i * PROCESS_WORDS;
    words[at] = row.opened;
    words[at + 1] = row.start.0;
    words[at + 2] = row.size;
    words[at + 3] = row.attached;
    words[at + 4] = row.mapped;
}
