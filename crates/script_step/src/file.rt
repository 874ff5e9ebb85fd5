// A `file` line: the bytes that its digits spell, behind those of the files before, and the file's row.
ghost use Rattle.std.specs.Prelude.{◌≡◌, cond, ◌+◌, ◌/◌, ◌≤◌, ◌<◌, length};
ghost use Rattle.text.specs.declared.words.Word.{Word};
ghost use Rattle.call_text.specs.WordList.{InList};
ghost use Rattle.frames.specs.PutBytes.{put_at};
ghost use Rattle.script_step.specs.FileStep.{byte_of, bytes_of, in_line, with_file};

use crate::machine::Machine;
use text::{Word, digit};

// A word that lies in a line of so many bytes; an empty one for one that does not.
pub fn in_line(len: usize, word: Word) -> Word
    ensures value { result ≡ in_line len word }
    ensures in_list { InList len result }
{
    if len < word.to {
        return Word { from: 0, to: 0 };
    }
    if word.to < word.from {
        return Word { from: 0, to: 0 };
    }
    word
}

// Puts the bytes that pairs of digits spell.
pub fn put_bytes(files: &mut [u8], at: usize, digits: &[u8])
    requires { at + length digits.now / 2 ≤ length files.old }
    ensures { files.new ≡ put_at files.old at (bytes_of digits.now) }
{
    let n = digits.len() / 2;
    for i in 0..n {
        files[at + i] = byte_of(digits[2 * i], digits[2 * i + 1]);
    }
}

// The byte that two digits spell.
fn byte_of(high: u8, low: u8) -> u8
    ensures { result ≡ byte_of high low }
{
    (digit(high) % 16 * 16 + digit(low) % 16) as u8
}

impl Machine {
    // With a file more, of so many bytes.
    pub fn with_file(self, readable: bool, len: usize) -> Machine
        requires files_bound { self.files < 8 }
        requires len_bound { self.bytes + len < 18446744073709551616 }
        ensures { result ≡ with_file self readable len }
    {
        let bytes = self.bytes;
        let row = self.files * 3;
        let mut rows = self.rows;
        rows[row] = flag_of(readable);
        rows[row + 1] = bytes as u64;
        rows[row + 2] = len as u64;
        Machine {
            started: false,
            frames: self.frames,
            files: self.files + 1,
            bytes: bytes + len,
            rows,
        }
    }
}

fn flag_of(set: bool) -> u64
    ensures { result ≡ cond set 1 0 }
{
    if set {
        return 1;
    }
    0
}
