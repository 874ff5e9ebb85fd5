// The list of a process's attached regions: their starts, in list order.
ghost use Rattle.std.specs.Prelude.{◌≡◌, ◌+◌, ◌*◌, ◌<◌, length, get_or, replicate};
ghost use Rattle.model.specs.Layout.{word_count, machine};
ghost use Rattle.model.specs.Machine.{order_of, region_at};
ghost use Rattle.model.specs.Lookup.{starts_of};
ghost use Rattle.model.specs.Answers.{listing};
ghost use Rattle.regions.specs.Starts.{with_starts};

use crate::slot::region_in;
use lookup::attached::attached_count;
use model::{Counted, SLOTS};
use rows::slots::order_at;

// The start of the region at a place of list order.
fn start_at(words: &[u64], process: usize, place: usize) -> u64
    requires words_len { length words.now ≡ word_count }
    requires process_bound { process < 8 }
    requires place_bound { place < 64 }
    ensures { result ≡ (region_at (machine words.now) process (get_or (machine words.now).order (process * 64 + place) 0)).start.0 }
{
    let slot = order_at(words, process * SLOTS + place) as usize;
    region_in(words, process, slot).start.0
}

// No starts: zeros alone.
pub fn put_zeros(starts: &mut [u64])
    requires { length starts.old ≡ 64 }
    ensures { starts.new ≡ replicate 64 0 }
{
    starts.fill(0);
}

// The starts of a process's attached regions, put into zeros.
pub fn put_starts(words: &[u64], starts: &mut [u64], process: usize) -> Counted
    requires words_len { length words.now ≡ word_count }
    requires starts_value { starts.old ≡ replicate 64 0 }
    requires process_bound { process < 8 }
    ensures { with_starts result starts.new ≡ listing (starts_of (machine words.now) process (order_of (machine words.now) process)) }
{
    let n = attached_count(words, process);
    for i in 0..n {
        starts[i] = start_at(words, process, i);
    }
    Counted {
        done: Ok(()),
        count: n as u64,
    }
}
