// A process's regions removed, all of them.
ghost use Rattle.std.specs.Prelude.{◌≡◌, ◌<◌, length};
ghost use Rattle.model.specs.Layout.{word_count, machine};
ghost use Rattle.remove.specs.Cleared.{FirstRemoved, Cleared};

use crate::region::remove_region;
use lookup::attached::attached_count;
use model::SLOTS;
use rows::slots::order_at;

// Removes the first region of a process's list.
fn remove_first(words: &mut [u64], process: usize)
    requires words_len { length words.old ≡ word_count }
    requires process_bound { process < 8 }
    ensures { FirstRemoved (machine words.old) process (machine words.new) }
{
    let slot = order_at(&words[..], process * SLOTS) as usize;
    if slot < SLOTS {
        remove_region(words, process, slot);
        return;
    }
}

// Removes every region of a process, in list order: the Rust's clear.
pub fn clear(words: &mut [u64], process: usize)
    requires words_len { length words.old ≡ word_count }
    requires process_bound { process < 8 }
    ensures { Cleared (machine words.old) process (machine words.new) }
{
    let count = attached_count(&words[..], process);
    for _ in 0..count {
        remove_first(words, process);
    }
}
