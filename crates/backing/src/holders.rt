// Backings claimed, held and released, and the pool's row with them.
ghost use Rattle.std.specs.Prelude.{◌≡◌, ◌<◌, length};
ghost use Rattle.model.specs.Layout.{word_count, machine};
ghost use Rattle.backing.specs.BackingSteps.{claimed, held, released, found_frame, next_frame, with_next_taken};

use crate::free::{frame_rows, lowest_free};
use crate::lent::{put_given_back, put_taken};
use address::PhysFrame;
use model::Backing;
use rows::backings::{backing_at, pool, put_backing};

// A new backing of `count` frames at `frame`, with one holder. The next free frame is no lower than it was.
pub fn claim(words: &mut [u64], frame: PhysFrame, count: u64)
    requires words_len { length words.old ≡ word_count }
    requires frame_bound { frame.0 < 256 }
    ensures { machine words.new ≡ claimed (machine words.old) frame.0 count }
{
    let before = pool(&words[..]);
    put_backing(
        words,
        frame.0 as usize,
        Backing {
            len: count,
            holders: 1,
        },
    );
    let next = lowest_free(&words[..], before.next);
    put_taken(words, before, count, next);
}

// The lowest free frame, claimed as a backing of its own.
pub fn take_frame(words: &mut [u64]) -> Option<PhysFrame>
    requires { length words.old ≡ word_count }
    ensures result_value { found_frame result ≡ next_frame (machine words.old) }
    ensures words_after { machine words.new ≡ with_next_taken (machine words.old) }
{
    let before = pool(&words[..]);
    let next = before.next;
    let rows = frame_rows(&words[..]);
    if next.0 < rows as u64 {
        claim(words, next, 1);
        return Some(next);
    }
    None
}

// One holder more of the backing at `frame`: the Rust's Arc::clone.
pub fn hold(words: &mut [u64], frame: PhysFrame)
    requires words_len { length words.old ≡ word_count }
    requires frame_bound { frame.0 < 256 }
    ensures { machine words.new ≡ held (machine words.old) frame.0 }
{
    let b = backing_at(&words[..], frame.0 as usize);
    put_backing(
        words,
        frame.0 as usize,
        Backing {
            holders: b.holders.wrapping_add(1),
            ..b
        },
    );
}

// One holder less of the backing at `frame`: the Rust's drop of an Arc. At the last its frames are free again.
pub fn release(words: &mut [u64], frame: PhysFrame)
    requires words_len { length words.old ≡ word_count }
    requires frame_bound { frame.0 < 256 }
    ensures { machine words.new ≡ released (machine words.old) frame.0 }
{
    let b = backing_at(&words[..], frame.0 as usize);
    if b.holders > 1 {
        put_backing(
            words,
            frame.0 as usize,
            Backing {
                holders: b.holders - 1,
                ..b
            },
        );
        return;
    }
    let before = pool(&words[..]);
    put_backing(words, frame.0 as usize, Backing { len: 0, holders: 0 });
    put_given_back(words, before, frame, b.len);
}
