// The regions that a range cuts, taken out of a process's list: those that overlap it without lying inside.
#![tactic(auto)]

ghost use Rattle.std.specs.Prelude.{◌≡◌, [], ◌∷◌, ◌+◌, ◌*◌, ◌<◌, ◌≤◌, length, get_or};
ghost use Rattle.std.proofs.lemmas.List.Edits.{sets};
ghost use Rattle.model.specs.Layout.{word_count, machine};
ghost use Rattle.model.specs.Machine.{order_of, with_order};
ghost use Rattle.laws.specs.Lists.{keep};
ghost use Rattle.model.specs.Carve.{partial};
ghost use Rattle.rows.specs.With.{with_order_table};
ghost use Rattle.carve_taken.specs.TakenOut.{whole};

use carve_inside::tests::is_in_part;
use lookup::attached::attached_count;
use model::SLOTS;
use regions::counts::put_attached;
use regions::detach::clear_places;
use regions::slot::region_in;
use rows::slots::{order_at, put_order};

// Puts the slot at a place of list order behind those found, if its region is cut; how many are found then.
fn put_slot(
    words: &[u64],
    out: &mut [u64],
    process: usize,
    place: usize,
    found: usize,
    start: u64,
    end: u64,
) -> usize
    requires words_len { length words.now ≡ word_count }
    requires out_len { length out.old ≡ 64 }
    requires process_bound { process < 8 }
    requires place_bound { place < 64 }
    requires found_le_place { found ≤ place }
    ensures value { result ≡ found + length (keep (partial (machine words.now) process start end) (get_or (machine words.now).order (process * 64 + place) 0 ∷ [])) }
    ensures out_after { out.new ≡ sets out.old found (keep (partial (machine words.now) process start end) (get_or (machine words.now).order (process * 64 + place) 0 ∷ [])) }
{
    let slot = order_at(words, process * SLOTS + place);
    let region = region_in(words, process, slot as usize);
    if !is_in_part(region, start, end) {
        return found;
    }
    out[found] = slot;
    found + 1
}

// The slots of the regions that a range cuts, in list order, put into `out`; how many there are.
fn cut_slots(words: &[u64], out: &mut [u64], process: usize, start: u64, end: u64) -> usize
    requires words_len { length words.now ≡ word_count }
    requires out_len { length out.old ≡ 64 }
    requires process_bound { process < 8 }
    ensures value { result ≡ length (keep (partial (machine words.now) process start end) (order_of (machine words.now) process)) }
    ensures upper_bound { result ≤ 64 }
    ensures out_after { out.new ≡ sets out.old 0 (keep (partial (machine words.now) process start end) (order_of (machine words.now) process)) }
{
    let n = attached_count(words, process);
    let mut found = 0;
    for i in 0..n {
        found = put_slot(words, out, process, i, found, start, end);
    }
    found
}

// Moves a place's slot down to place `kept` unless its region is cut; how many are kept then.
fn keep_place(
    words: &mut [u64],
    process: usize,
    place: usize,
    kept: usize,
    start: u64,
    end: u64,
) -> usize
    requires words_len { length words.old ≡ word_count }
    requires process_bound { process < 8 }
    requires place_bound { place < 64 }
    requires kept_le_place { kept ≤ place }
    ensures value { result ≡ kept + length (keep (whole (machine words.old) process start end) (get_or (machine words.old).order (process * 64 + place) 0 ∷ [])) }
    ensures words_after { machine words.new ≡ with_order_table (machine words.old) (sets (machine words.old).order (process * 64 + kept) (keep (whole (machine words.old) process start end) (get_or (machine words.old).order (process * 64 + place) 0 ∷ []))) }
{
    let slot = order_at(&words[..], process * SLOTS + place);
    let region = region_in(&words[..], process, slot as usize);
    if is_in_part(region, start, end) {
        return kept;
    }
    put_order(words, process * SLOTS + kept, slot);
    kept + 1
}

// Takes the slots of cut regions out of list order; how many are kept. The places after them stay as they were.
fn retain_whole(words: &mut [u64], process: usize, start: u64, end: u64) -> usize
    requires words_len { length words.old ≡ word_count }
    requires process_bound { process < 8 }
    ensures value { result ≡ length (keep (whole (machine words.old) process start end) (order_of (machine words.old) process)) }
    ensures upper_bound { result ≤ 64 }
    ensures words_after { machine words.new ≡ with_order_table (machine words.old) (sets (machine words.old).order (process * 64) (keep (whole (machine words.old) process start end) (order_of (machine words.old) process))) }
{
    let n = attached_count(&words[..], process);
    let mut kept = 0;
    for i in 0..n {
        kept = keep_place(words, process, i, kept, start, end);
    }
    kept
}

// Takes the regions that a range cuts out of a process's list.
fn detach_cut(words: &mut [u64], process: usize, start: u64, end: u64)
    requires words_len { length words.old ≡ word_count }
    requires process_bound { process < 8 }
    ensures { machine words.new ≡ with_order (machine words.old) process (keep (whole (machine words.old) process start end) (order_of (machine words.old) process)) }
{
    let kept = retain_whole(words, process, start, end);
    clear_places(words, process, kept);
    put_attached(words, process, kept as u64);
}

// Takes the regions that a range cuts out of a process's list, and puts their slots, in list order, into `out`; how many there are.
pub fn take_out(words: &mut [u64], out: &mut [u64], process: usize, start: u64, end: u64) -> usize
    requires words_len { length words.old ≡ word_count }
    requires out_len { length out.old ≡ 64 }
    requires process_bound { process < 8 }
    ensures value { result ≡ length (keep (partial (machine words.old) process start end) (order_of (machine words.old) process)) }
    ensures upper_bound { result ≤ 64 }
    ensures out_after { out.new ≡ sets out.old 0 (keep (partial (machine words.old) process start end) (order_of (machine words.old) process)) }
    ensures words_after { machine words.new ≡ with_order (machine words.old) process (keep (whole (machine words.old) process start end) (order_of (machine words.old) process)) }
{
    let found = cut_slots(&words[..], out, process, start, end);
    detach_cut(words, process, start, end);
    found
}
