// Frames in use, and the sums over their bytes.
ghost use Rattle.std.specs.Prelude.{◌≡◌, ◌<◌, length};
ghost use Rattle.model.specs.Layout.{word_count};
ghost use Rattle.state_text.specs.Sum.{sum_from};

use rows::backings::backing_at;

// The sum over bytes, in 32 bits. A `fold` has no bound of the sum, which the loop's invariant has.
pub fn sum_of(bytes: &[u8]) -> u64
    ensures { result ≡ sum_from 0 bytes.now }
{
    let mut sum = 0;
    for &byte in bytes {
        sum = (sum * 31 + byte as u64 + 1) % (1 << 32);
    }
    sum
}

// Whether a frame lies in a backing.
pub fn is_in_use(words: &[u64], frame: usize) -> bool
    requires words_len { length words.now ≡ word_count }
    requires frame_bound { frame < 256 }
{
    (0..=frame).any(|first| ((frame - first) as u64) < backing_at(words, first).len)
}
