// Backings, 256 rows of 2 words from word 11304, the pool, words 11816 and 11817, and the number of frames, word 11842.
ghost use Rattle.std.specs.Prelude.{◌≡◌, ◌<◌, length, get_or, set};
ghost use Rattle.model.specs.Layout.{word_count, machine};
ghost use Rattle.model.specs.Machine.{no_backing, with_pool};
ghost use Rattle.rows.specs.With.{with_frame_count};

use crate::{BACKING_WORDS, BACKINGS_AT, FRAME_COUNT_AT, POOL_FREE_AT, POOL_NEXT_AT};
use address::PhysFrame;
use model::{Backing, Pool};

// The backing that starts at frame i.
pub fn backing_at(words: &[u64], i: usize) -> Backing
    requires words_len { length words.now ≡ word_count }
    requires i_bound { i < 256 }
    ensures { result ≡ get_or (machine words.now).backings i no_backing }
{
    let at = BACKINGS_AT + i * BACKING_WORDS;
    Backing {
        len: words[at],
        holders: words[at + 1],
    }
}

// Puts the backing that starts at frame i; the pool's row is put by itself.
pub fn put_backing(words: &mut [u64], i: usize, row: Backing)
    requires words_len { length words.old ≡ word_count }
    requires i_bound { i < 256 }
    ensures { machine words.new ≡ with_pool (machine words.old) (set (machine words.old).backings i row) (machine words.old).pool }
{
    let at = BACKINGS_AT + i * BACKING_WORDS;
    words[at] = row.len;
    words[at + 1] = row.holders;
}

// The pool's row.
pub fn pool(words: &[u64]) -> Pool
    requires { length words.now ≡ word_count }
    ensures { result ≡ (machine words.now).pool }
{
    Pool {
        free: words[POOL_FREE_AT],
        next: PhysFrame(words[POOL_NEXT_AT]),
    }
}

// Puts the pool's row.
pub fn put_pool(words: &mut [u64], row: Pool)
    requires { length words.old ≡ word_count }
    ensures { machine words.new ≡ with_pool (machine words.old) (machine words.old).backings row }
{
    words[POOL_FREE_AT] = row.free;
    words[POOL_NEXT_AT] = row.next.0;
}

// How many frames there are.
pub fn frame_count(words: &[u64]) -> u64
    requires { length words.now ≡ word_count }
    ensures { result ≡ (machine words.now).frame_count }
{
    words[FRAME_COUNT_AT]
}

// Puts the number of frames.
pub fn put_frame_count(words: &mut [u64], count: u64)
    requires { length words.old ≡ word_count }
    ensures { machine words.new ≡ with_frame_count (machine words.old) count }
{
    words[FRAME_COUNT_AT] = count;
}
