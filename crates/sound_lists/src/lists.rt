// Lists of attached regions: slots in use, none twice, zeros past the last; regions in no list are pinned.
ghost use Rattle.std.specs.Prelude.{◌≡◌, true, ◌&&◌, not, ◌≤◌, ◌<◌, length, get_or, set, drop};
ghost use Rattle.model.specs.Layout.{word_count, machine};
ghost use Rattle.laws.specs.Lists.{all, part};
ghost use Rattle.model.specs.Machine.{no_process};
ghost use Rattle.model.specs.Lookup.{regions_of};
ghost use Rattle.laws.specs.Tests.{all_rows};
ghost use Rattle.model.specs.SoundTest.{each_process, listedb, orderedb};
ghost use Rattle.sound_lists.specs.Marks.{marked};
ghost use Rattle.sound_lists.specs.ListOrder.{is_zero, pinned_if_unmarked};

use lookup::attached::attached_count;
use model::{FREE, PROCESSES, Region, SLOTS};
use rows::slots::{order_at, region_at};

// Marks a slot that is listed: it must be one that is in use and has no mark yet.
fn mark_listed(words: &[u64], process: usize, slot: u64, marks: &mut [u8]) -> bool
    requires words_len { length words.now ≡ word_count }
    requires process_bound { process < 8 }
    requires marks_len { length marks.old ≡ 64 }
    ensures value { result ≡ (listedb (machine words.now) process slot && not (marked marks.old slot)) }
    ensures marks_after { result ≡ true → marks.new ≡ set marks.old slot 1 }
{
    if slot >= SLOTS as u64 {
        return false;
    }
    let region = region_at(words, process * SLOTS + slot as usize);
    if region.kind == FREE {
        return false;
    }
    if marks[slot as usize] != 0 {
        return false;
    }
    marks[slot as usize] = 1;
    true
}

// Whether a process's places from one on are 0.
fn places_are_zero(words: &[u64], process: usize, from: usize) -> bool
    requires words_len { length words.now ≡ word_count }
    requires process_bound { process < 8 }
    requires from_bound { from ≤ 64 }
    ensures { result ≡ all is_zero (drop from (part 64 process (machine words.now).order)) }
{
    (from..SLOTS).all(|i| order_at(words, process * SLOTS + i) == 0)
}

// Whether a slot is free, marked as listed, or its region pinned.
fn is_pinned_if_unmarked(region: Region, mark: u8) -> bool
    ensures { result ≡ pinned_if_unmarked mark region }
{
    if region.kind == FREE {
        return true;
    }
    if mark != 0 {
        return true;
    }
    region.pins >= 1
}

// Whether every region of a process that has no mark is pinned.
fn unmarked_are_pinned(words: &[u64], process: usize, marks: &[u8]) -> bool
    requires words_len { length words.now ≡ word_count }
    requires process_bound { process < 8 }
    requires marks_len { length marks.now ≡ 64 }
    ensures { result ≡ all_rows (λ s x. pinned_if_unmarked (get_or marks.now s 0) x) 0 (regions_of (machine words.now) process) }
{
    (0..SLOTS).all(|i| is_pinned_if_unmarked(region_at(words, process * SLOTS + i), marks[i]))
}

// Whether the list of a process's attached regions is in order. One pass marks the listed slots: a slot listed twice has a mark.
fn process_is_ordered(words: &[u64], process: usize) -> bool
    requires words_len { length words.now ≡ word_count }
    requires process_bound { process < 8 }
    ensures { result ≡ orderedb (machine words.now) process (get_or (machine words.now).processes process no_process) }
{
    let n = attached_count(words, process);
    let mut marks = [0u8; SLOTS];
    for i in 0..n {
        let slot = order_at(words, process * SLOTS + i);
        if !mark_listed(words, process, slot, &mut marks) {
            return false;
        }
    }
    if !places_are_zero(words, process, n) {
        return false;
    }
    unmarked_are_pinned(words, process, &marks)
}

// The lists of every process.
pub fn ordered(words: &[u64]) -> bool
    requires { length words.now ≡ word_count }
    ensures { result ≡ each_process (machine words.now) (orderedb (machine words.now)) }
{
    (0..PROCESSES).all(|i| process_is_ordered(words, i))
}
