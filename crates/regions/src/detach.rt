// A region less in a process's list: the later ones move down, as with the Rust's retain.
ghost use Rattle.std.specs.Prelude.{◌≡◌, [], ◌∷◌, ◌+◌, ◌-◌, ◌*◌, ◌<◌, ◌≤◌, length, get_or, replicate};
ghost use Rattle.std.proofs.lemmas.List.Edits.{sets};
ghost use Rattle.laws.specs.Lists.{keep};
ghost use Rattle.model.specs.Layout.{word_count, machine};
ghost use Rattle.model.specs.Machine.{order_of, with_order};
ghost use Rattle.rows.specs.With.{with_order_table};
ghost use Rattle.regions.specs.Detached.{other};

use crate::counts::put_attached;
use lookup::attached::attached_count;
use model::SLOTS;
use rows::slots::{order_at, put_order};

// Moves a place's slot down to place `kept` unless it is the one to leave; how many are kept then.
fn keep_place(words: &mut [u64], process: usize, place: usize, kept: usize, slot: usize) -> usize
    requires words_len { length words.old ≡ word_count }
    requires process_bound { process < 8 }
    requires place_bound { place < 64 }
    requires kept_le_place { kept ≤ place }
    ensures value { result ≡ kept + length (keep (other slot) (get_or (machine words.old).order (process * 64 + place) 0 ∷ [])) }
    ensures words_after { machine words.new ≡ with_order_table (machine words.old) (sets (machine words.old).order (process * 64 + kept) (keep (other slot) (get_or (machine words.old).order (process * 64 + place) 0 ∷ []))) }
{
    let here = order_at(&words[..], process * SLOTS + place);
    if here == slot as u64 {
        return kept;
    }
    put_order(words, process * SLOTS + kept, here);
    kept + 1
}

// Takes a slot out of list order; how many are kept. The places after them stay as they were.
fn retain(words: &mut [u64], process: usize, slot: usize) -> usize
    requires words_len { length words.old ≡ word_count }
    requires process_bound { process < 8 }
    ensures value { result ≡ length (keep (other slot) (order_of (machine words.old) process)) }
    ensures upper_bound { result ≤ 64 }
    ensures words_after { machine words.new ≡ with_order_table (machine words.old) (sets (machine words.old).order (process * 64) (keep (other slot) (order_of (machine words.old) process))) }
{
    let n = attached_count(&words[..], process);
    let mut kept = 0;
    for i in 0..n {
        kept = keep_place(words, process, i, kept, slot);
    }
    kept
}

// Puts 0 at every place of list order from one on.
pub fn clear_places(words: &mut [u64], process: usize, from: usize)
    requires words_len { length words.old ≡ word_count }
    requires process_bound { process < 8 }
    requires from_bound { from ≤ 64 }
    ensures { machine words.new ≡ with_order_table (machine words.old) (sets (machine words.old).order (process * 64 + from) (replicate (64 - from) 0)) }
{
    for i in from..SLOTS {
        put_order(words, process * SLOTS + i, 0);
    }
}

// Takes a slot out of a process's list.
pub fn detach(words: &mut [u64], process: usize, slot: usize)
    requires words_len { length words.old ≡ word_count }
    requires process_bound { process < 8 }
    ensures { machine words.new ≡ with_order (machine words.old) process (keep (other slot) (order_of (machine words.old) process)) }
{
    let kept = retain(words, process, slot);
    clear_places(words, process, kept);
    put_attached(words, process, kept as u64);
}
