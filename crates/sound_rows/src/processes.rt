// The processes' rows: arenas of user addresses, counts that fit, and closed processes that are empty.
ghost use Rattle.std.specs.Prelude.{◌≡◌, ◌<◌, length};
ghost use Rattle.model.specs.Layout.{word_count, machine};
ghost use Rattle.model.specs.Lookup.{regions_of};
ghost use Rattle.laws.specs.Tests.{all_rows};
ghost use Rattle.model.specs.SoundTest.{each_process, free_process, empty_process, process_fits};
ghost use Rattle.sound_rows.specs.ProcessRow.{arena_fits, no_slot};

use address::{PAGE_SIZE, USER_END};
use model::{FREE, MAPPED_PAGES, PROCESSES, Process, SLOTS};
use rows::processes::process_at;
use rows::slots::region_at;

// Whether every process's row fits.
pub fn processes_fit(words: &[u64]) -> bool
    requires { length words.now ≡ word_count }
    ensures { result ≡ each_process (machine words.now) (process_fits (machine words.now)) }
{
    for i in 0..PROCESSES {
        let row = process_at(words, i);
        if !process_fits(words, i, row) {
            return false;
        }
    }
    true
}

// Whether a process is open or empty, and its row fits.
fn process_fits(words: &[u64], process: usize, row: Process) -> bool
    requires words_len { length words.now ≡ word_count }
    requires process_bound { process < 8 }
    ensures { result ≡ process_fits (machine words.now) process row }
{
    if row.opened == 1 {
        return arena_fits(row);
    }
    if !empty_process(words, process, row) {
        return false;
    }
    arena_fits(row)
}

// Whether the arena is one of user addresses, and the counts fit the lists; start plus size may be too large a sum.
fn arena_fits(row: Process) -> bool
    ensures { result ≡ arena_fits row }
{
    if row.start.0 % PAGE_SIZE != 0 {
        return false;
    }
    if row.size % PAGE_SIZE != 0 {
        return false;
    }
    if USER_END <= row.start.0 {
        return false;
    }
    if USER_END - row.start.0 < row.size {
        return false;
    }
    if (SLOTS as u64) < row.attached {
        return false;
    }
    row.mapped <= MAPPED_PAGES as u64
}

// Whether a process's row is free and it has no region.
fn empty_process(words: &[u64], process: usize, row: Process) -> bool
    requires words_len { length words.now ≡ word_count }
    requires process_bound { process < 8 }
    ensures { result ≡ empty_process (machine words.now) process row }
{
    if !is_free_process(row) {
        return false;
    }
    no_region(words, process)
}

// Whether a process's words are all 0.
fn is_free_process(row: Process) -> bool
    ensures { result ≡ free_process row }
{
    row.opened | row.start.0 | row.size | row.attached | row.mapped == 0
}

// Whether all slots of a process are free.
fn no_region(words: &[u64], process: usize) -> bool
    requires words_len { length words.now ≡ word_count }
    requires process_bound { process < 8 }
    ensures { result ≡ all_rows no_slot 0 (regions_of (machine words.now) process) }
{
    for i in 0..SLOTS {
        let region = region_at(words, process * SLOTS + i);
        if region.kind != FREE {
            return false;
        }
    }
    true
}
