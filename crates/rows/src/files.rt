// Files, 8 rows of 3 words from word 11818, and the number of files, word 11843.
ghost use Rattle.std.specs.Prelude.{◌≡◌, ◌<◌, length, get_or, set};
ghost use Rattle.model.specs.Layout.{word_count, machine};
ghost use Rattle.model.specs.Machine.{no_file};
ghost use Rattle.rows.specs.FileRow.{is_lent};
ghost use Rattle.rows.specs.With.{with_files, with_file_count};

use crate::{FILE_COUNT_AT, FILE_WORDS, FILES_AT};
use model::File;

// The row of a file.
pub fn file_at(words: &[u64], i: usize) -> File
    requires words_len { length words.now ≡ word_count }
    requires i_bound { i < 8 }
    ensures { result ≡ get_or (machine words.now).files i no_file }
{
    let at = FILES_AT + i * FILE_WORDS;
    File {
        readable: words[at],
        offset: words[at + 1],
        len: words[at + 2],
    }
}

// Puts a file's row.
pub fn put_file(words: &mut [u64], i: usize, row: File)
    requires words_len { length words.old ≡ word_count }
    requires i_bound { i < 8 }
    ensures { machine words.new ≡ with_files (machine words.old) (set (machine words.old).files i row) }
{
    let at = FILES_AT + i * FILE_WORDS;
    words[at] = row.readable;
    words[at + 1] = row.offset;
    words[at + 2] = row.len;
}

// Whether a file lies in the lent bytes, with no sum that could be too large.
pub fn is_lent(file: File, bytes: usize) -> bool
    ensures { result ≡ is_lent bytes file }
{
    let bytes = bytes as u64;
    file.readable <= 1 && file.len <= bytes && file.offset <= bytes - file.len
}

// How many files there are.
pub fn file_count(words: &[u64]) -> u64
    requires { length words.now ≡ word_count }
    ensures { result ≡ (machine words.now).file_count }
{
    words[FILE_COUNT_AT]
}

// Puts the number of files.
pub fn put_file_count(words: &mut [u64], count: u64)
    requires { length words.old ≡ word_count }
    ensures { machine words.new ≡ with_file_count (machine words.old) count }
{
    words[FILE_COUNT_AT] = count;
}
