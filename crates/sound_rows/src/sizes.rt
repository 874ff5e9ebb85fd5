// The counts of frames and files, the frame bytes' length, and the files' rows.
ghost use Rattle.std.specs.Prelude.{◌≡◌, ◌<◌, length};
ghost use Rattle.model.specs.Layout.{word_count, machine};
ghost use Rattle.laws.specs.Tests.{all_rows};
ghost use Rattle.model.specs.SoundTest.{free_file};
ghost use Rattle.sound_rows.specs.Sizes.{sizes_fit, file_fits_in};

use model::{FILES, FRAME_BYTES, FRAMES, File};
use rows::backings::frame_count;
use rows::files::{file_at, file_count, is_lent};

// Whether the counts fit their tables, and the frame bytes the count of frames.
pub fn sized(words: &[u64], frames: usize) -> bool
    requires { length words.now ≡ word_count }
    ensures { result ≡ sizes_fit (machine words.now) frames }
{
    let count = frame_count(words);
    if (FRAMES as u64) < count {
        return false;
    }
    let files = file_count(words);
    if (FILES as u64) < files {
        return false;
    }
    frames == count as usize * FRAME_BYTES
}

// Whether every file's row fits the count of files and the lent bytes.
pub fn files_fit(words: &[u64], bytes: usize) -> bool
    requires { length words.now ≡ word_count }
    ensures { result ≡ all_rows (file_fits_in (machine words.now).file_count bytes) 0 (machine words.now).files }
{
    let count = file_count(words);
    for i in 0..FILES {
        let row = file_at(words, i);
        if !file_fits(count as usize, bytes, i, row) {
            return false;
        }
    }
    true
}

// Whether a file lies in the lent bytes, or its row is free past the last file.
fn file_fits(count: usize, bytes: usize, i: usize, row: File) -> bool
    ensures { result ≡ file_fits_in count bytes i row }
{
    if i < count {
        return is_lent(row, bytes);
    }
    is_free_file(row)
}

// Whether a file's words are all 0.
fn is_free_file(row: File) -> bool
    ensures { result ≡ free_file row }
{
    row.readable | row.offset | row.len == 0
}
