// Start: the lent words become the empty machine, whatever they were.
ghost use Rattle.std.specs.Prelude.{◌≡◌, ◌+◌, ◌*◌, ◌/◌, ◌≤◌, length};
ghost use Rattle.std.proofs.Math.Seq.{paste};
ghost use Rattle.model.specs.Layout.{word_count, machine};
ghost use Rattle.laws.specs.Lists.{all};
ghost use Rattle.model.specs.Machine.{empty_machine};
ghost use Rattle.rows.specs.FileRow.{is_lent};
ghost use Rattle.rows.specs.With.{with_files};
ghost use Rattle.process.specs.Start.{file_in, files_of, bad_sizes, Zeros, Starts};

use address::PhysFrame;
use answers::Refusal;
use model::{FILES, FRAME_BYTES, FRAMES, File, Pool};
use rows::WORD_COUNT;
use rows::backings::{put_frame_count, put_pool};
use rows::files::{is_lent, put_file, put_file_count};

// File i of a list of files, three words a file.
fn file_in(rows: &[u64], i: usize) -> File
    requires { i * 3 + 3 ≤ length rows.now }
    ensures { result ≡ file_in rows.now i }
{
    File {
        readable: rows[i * 3],
        offset: rows[i * 3 + 1],
        len: rows[i * 3 + 2],
    }
}

// Whether every file of a list does.
fn files_fit(rows: &[u64], bytes: usize) -> bool
    ensures { result ≡ all (is_lent bytes) (files_of rows.now) }
{
    let n = rows.len() / 3;
    for i in 0..n {
        let file = file_in(rows, i);
        if !is_lent(file, bytes) {
            return false;
        }
    }
    true
}

// Whether the frames or the files do not fit: no whole files or frames, too many of them, or files past their bytes.
fn is_bad_size(rows: &[u64], frames: usize, bytes: usize) -> bool
    ensures { result ≡ bad_sizes rows.now frames bytes }
{
    if rows.len() % 3 != 0 {
        return true;
    }
    if frames % FRAME_BYTES != 0 {
        return true;
    }
    if FRAMES < frames / FRAME_BYTES {
        return true;
    }
    if FILES < rows.len() / 3 {
        return true;
    }
    !files_fit(rows, bytes)
}

// Every word becomes 0.
fn zero_words(words: &mut [u64])
    requires { length words.old ≡ word_count }
    ensures { Zeros words.new }
{
    for i in 0..WORD_COUNT {
        words[i] = 0;
    }
}

// Puts the rows of a list of files.
fn put_files(words: &mut [u64], rows: &[u64])
    requires words_len { length words.old ≡ word_count }
    requires rows_len_bound { length rows.now / 3 ≤ 8 }
    ensures { machine words.new ≡ with_files (machine words.old) (paste (machine words.old).files 0 (files_of rows.now) (length rows.now / 3)) }
{
    let n = rows.len() / 3;
    for i in 0..n {
        let file = file_in(rows, i);
        put_file(words, i, file);
    }
}

// The empty machine with so many frames, and files.
fn put_empty(words: &mut [u64], frames: usize, rows: &[u64])
    requires words_len { length words.old ≡ word_count }
    requires rows_len_bound { length rows.now / 3 ≤ 8 }
    ensures { machine words.new ≡ empty_machine frames (files_of rows.now) }
{
    zero_words(words);
    let pool = Pool {
        free: frames as u64,
        next: PhysFrame(0),
    };
    put_pool(words, pool);
    put_frame_count(words, frames as u64);
    put_files(words, rows);
    put_file_count(words, rows.len() as u64 / 3);
}

// Begins anew with lent frames and files; `rows` lists the files, three words a file: readable, offset, length.
pub fn start(words: &mut [u64], frames: &[u8], files: &[u8], rows: &[u64]) -> Result<(), Refusal>
    ensures { Starts words.old frames.now files.now rows.now words.new result }
{
    if words.len() != WORD_COUNT {
        return Err(Refusal::BadTable);
    }
    if is_bad_size(rows, frames.len(), files.len()) {
        return Err(Refusal::BadTable);
    }
    put_empty(words, frames.len() / FRAME_BYTES, rows);
    Ok(())
}
