// A process's 128 rows of mapped pages, in place: one put, some moved up or down, some cleared, and the count of those in use.
ghost use Rattle.std.specs.Prelude.{◌≡◌, suc, ◌-◌, ◌<◌, ◌≤◌, length, get_or, set, replicate};
ghost use Rattle.std.proofs.Math.Seq.{slice};
ghost use Rattle.model.specs.Layout.{word_count, machine};
ghost use Rattle.model.specs.Machine.{no_mapping};
ghost use Rattle.paging.specs.ProcessRows.{rows_of, with_rows, with_count, put_rows};

use crate::search::row_at;
use address::{Page, PageTableFlags, PhysFrame};
use model::{MAPPED_PAGES, Mapping, Process};
use rows::pages::put_mapping;
use rows::processes::{process_at, put_process};

// Puts a row.
pub fn put_row(words: &mut [u64], process: usize, i: usize, row: Mapping)
    requires words_len { length words.old ≡ word_count }
    requires process_bound { process < 8 }
    requires i_bound { i < 128 }
    ensures { machine words.new ≡ with_rows (machine words.old) process (set (rows_of (machine words.old) process) i row) }
{
    put_mapping(words, process * MAPPED_PAGES + i, row);
}

// Puts the count of rows in use.
pub fn put_count(words: &mut [u64], process: usize, count: usize)
    requires words_len { length words.old ≡ word_count }
    requires process_bound { process < 8 }
    ensures { machine words.new ≡ with_count (machine words.old) process count }
{
    let p = process_at(&words[..], process);
    let row = Process {
        mapped: count as u64,
        ..p
    };
    put_process(words, process, row);
}

// Row `to` becomes what row `from` is.
pub fn copy_row(words: &mut [u64], process: usize, from: usize, to: usize)
    requires words_len { length words.old ≡ word_count }
    requires process_bound { process < 8 }
    requires from_bound { from < 128 }
    requires to_bound { to < 128 }
    ensures { machine words.new ≡ with_rows (machine words.old) process (set (rows_of (machine words.old) process) to (get_or (rows_of (machine words.old) process) from no_mapping)) }
{
    let row = row_at(&words[..], process, from);
    put_row(words, process, to, row);
}

// The rows from `from` up to `to` move up by one, the highest first.
pub fn raise(words: &mut [u64], process: usize, from: usize, to: usize)
    requires words_len { length words.old ≡ word_count }
    requires process_bound { process < 8 }
    requires from_le_to { from ≤ to }
    requires to_bound { to < 128 }
    ensures { machine words.new ≡ with_rows (machine words.old) process (put_rows (rows_of (machine words.old) process) (suc from) (slice from to (rows_of (machine words.old) process))) }
{
    for i in (from..to).rev() {
        copy_row(words, process, i, i + 1);
    }
}

// The rows from `from` up to `to` move down to `at`, the lowest first.
pub fn lower(words: &mut [u64], process: usize, at: usize, from: usize, to: usize)
    requires words_len { length words.old ≡ word_count }
    requires process_bound { process < 8 }
    requires at_le_from { at ≤ from }
    requires from_le_to { from ≤ to }
    requires to_bound { to ≤ 128 }
    ensures { machine words.new ≡ with_rows (machine words.old) process (put_rows (rows_of (machine words.old) process) at (slice from to (rows_of (machine words.old) process))) }
{
    for i in 0..to - from {
        copy_row(words, process, from + i, at + i);
    }
}

// The rows from `from` up to `to` become free ones, all zeros.
pub fn clear(words: &mut [u64], process: usize, from: usize, to: usize)
    requires words_len { length words.old ≡ word_count }
    requires process_bound { process < 8 }
    requires from_le_to { from ≤ to }
    requires to_bound { to ≤ 128 }
    ensures { machine words.new ≡ with_rows (machine words.old) process (put_rows (rows_of (machine words.old) process) from (replicate (to - from) no_mapping)) }
{
    for i in 0..to - from {
        clear_row(words, process, from + i);
    }
}

// Row i becomes a free one, all zeros.
fn clear_row(words: &mut [u64], process: usize, i: usize)
    requires words_len { length words.old ≡ word_count }
    requires process_bound { process < 8 }
    requires i_bound { i < 128 }
    ensures { machine words.new ≡ with_rows (machine words.old) process (set (rows_of (machine words.old) process) i no_mapping) }
{
    let row = Mapping {
        page: Page(0),
        frame: PhysFrame(0),
        flags: PageTableFlags(0),
    };
    put_row(words, process, i, row);
}
