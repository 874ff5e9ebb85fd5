// Whether the backings lie apart in the machine's frames, and the pool is what they leave: one pass over their rows.
ghost use Rattle.std.specs.Prelude.{◌≡◌, ◌&&◌, ◌<◌, ◌≤◌, length, eqb};
ghost use Rattle.model.specs.Layout.{word_count, machine};
ghost use Rattle.model.specs.SoundTest.{r2b};
ghost use Rattle.sound_frames.specs.Met.{may_start, with_row, with_free};

use model::FRAMES;
use rows::backings::{backing_at, frame_count, pool};

// Of the rows met: where the last backing ends, how many frames are in none, and the first of them (the number of frames where there is none).
#[derive(Clone, Copy)]
struct Met {
    end: u64,
    free: u64,
    next: u64,
}

// Whether the backings fit: apart, within the frames, and the pool's frames are those in none.
pub fn backings_fit(words: &[u64]) -> bool
    requires words_len { length words.now ≡ word_count }
    requires words_bound { (machine words.now).frame_count ≤ 256 }
    ensures { result ≡ r2b (machine words.now) }
{
    let count = frame_count(words);
    let mut met = Met {
        end: 0,
        free: 0,
        next: count,
    };
    for f in 0..FRAMES as u64 {
        let b = backing_at(words, f as usize);
        if !may_start(met.end, f, b.len, count) {
            return false;
        }
        met = with_row(met, f, b.len, count);
    }
    is_pool(words, met.free, met.next)
}

// Whether a row is no backing, or one that starts past the last and ends within the frames.
fn may_start(end: u64, f: u64, len: u64, count: u64) -> bool
    ensures { result ≡ may_start end f len count }
{
    if len == 0 {
        return true;
    }
    if f < end {
        return false;
    }
    if count < f {
        return false;
    }
    len <= count - f
}

// With one row more.
fn with_row(met: Met, f: u64, len: u64, count: u64) -> Met
    requires f_bound { f < 256 }
    requires len_bound { len ≤ 256 }
    requires free_le_f { met.free ≤ f }
    ensures { result ≡ with_row count f len met }
{
    if len != 0 {
        return Met {
            end: f + len,
            free: met.free,
            next: met.next,
        };
    }
    if f < met.end {
        return met;
    }
    if count <= f {
        return met;
    }
    with_free(met, f)
}

// With a free frame more.
fn with_free(met: Met, f: u64) -> Met
    requires { met.free < 256 }
    ensures { result ≡ with_free f met }
{
    if met.free == 0 {
        return Met {
            end: met.end,
            free: 1,
            next: f,
        };
    }
    Met {
        end: met.end,
        free: met.free + 1,
        next: met.next,
    }
}

// Whether the pool has so many free frames, and this one first.
fn is_pool(words: &[u64], free: u64, next: u64) -> bool
    requires { length words.now ≡ word_count }
    ensures { result ≡ (eqb (machine words.now).pool.free free && eqb (machine words.now).pool.next.0 next) }
{
    let p = pool(words);
    if p.free == free {
        return p.next.0 == next;
    }
    false
}
