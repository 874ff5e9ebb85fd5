// A region split at a bound, and at both bounds of a range.
ghost use Rattle.std.specs.Prelude.{◌≡◌, ◌+◌, ◌-◌, ◌*◌, ◌<◌, ◌^◌, length};
ghost use Rattle.model.specs.Layout.{word_count, machine};
ghost use Rattle.model.specs.Machine.{region_at};
ghost use Rattle.model.specs.Carve.{split_bound, split_at_bounds};
ghost use Rattle.split.specs.SplitBound.{cut_at, Splittable, Bounded};

use crate::give::give_entries;
use crate::list::push;
use lookup::search::free_slot;
use model::SLOTS;
use rows::slots::{put_region, region_at};
use split_parts::{high_part, is_strictly_inside, low_part};

// Splits the region in a slot at an address: the low part keeps the slot, the high part takes another.
fn cut(words: &mut [u64], process: usize, slot: usize, new: usize, at: u64)
    requires words_len { length words.old ≡ word_count }
    requires process_bound { process < 8 }
    requires slot_bound { slot < 64 }
    requires bound { new < 64 }
    requires slot_bound_2 { (region_at (machine words.old) process slot).offset + (at - (region_at (machine words.old) process slot).start.0) < 2 ^ 64 }
    ensures { machine words.new ≡ cut_at (machine words.old) process slot new at }
{
    let row = process * SLOTS + slot;
    let other = process * SLOTS + new;
    let region = region_at(&words[..], row);
    put_region(words, row, low_part(region, at));
    put_region(words, other, high_part(region, at));
    give_entries(words, row, at, other);
}

// Splits the region in a slot at a bound, if it lies inside, and puts the low part last in the list; the slot of what is left.
fn split_bound(words: &mut [u64], process: usize, slot: usize, at: u64) -> usize
    requires words_len { length words.old ≡ word_count }
    requires process_bound { process < 8 }
    requires splittable { Splittable (machine words.old) process slot at }
    ensures value { result ≡ (split_bound process at (record { machine = machine words.old; slot = slot })).slot }
    ensures words_after { machine words.new ≡ (split_bound process at (record { machine = machine words.old; slot = slot })).machine }
{
    let region = region_at(&words[..], process * SLOTS + slot);
    if !is_strictly_inside(region, at) {
        return slot;
    }
    let Some(new) = free_slot(&words[..], process) else {
        return slot;
    };
    cut(words, process, slot, new, at);
    push(words, process, slot);
    new
}

// Splits the region in a slot at the bounds of a range and puts its parts last in the list, in address order.
pub fn split_at_bounds(words: &mut [u64], process: usize, slot: usize, start: u64, end: u64)
    requires words_len { length words.old ≡ word_count }
    requires process_bound { process < 8 }
    requires bounded { Bounded (machine words.old) process slot start end }
    ensures { machine words.new ≡ split_at_bounds (machine words.old) process slot start end }
{
    let middle = split_bound(words, process, slot, start);
    let last = split_bound(words, process, middle, end);
    push(words, process, last);
}
