// The answer of carve: InUse if a region inside the range is pinned, else the starts of the regions inside.
ghost use Rattle.std.specs.Prelude.{◌≡◌, [], ◌∷◌, ◌+◌, ◌*◌, ◌<◌, ◌≤◌, length, get_or, replicate};
ghost use Rattle.std.proofs.lemmas.List.Edits.{sets};
ghost use Rattle.model.specs.Layout.{word_count, machine};
ghost use Rattle.model.specs.Machine.{region_at};
ghost use Rattle.laws.specs.Lists.{any};
ghost use Rattle.model.specs.Lookup.{is_pinned, starts_of};
ghost use Rattle.model.specs.Answers.{listing};
ghost use Rattle.model.specs.Carve.{inside_of, carve_answer};
ghost use Rattle.carve_inside.specs.PinnedInside.{pinned_in};
ghost use Rattle.regions.specs.Starts.{with_starts};
ghost use Rattle.carve_inside.specs.CarveAnswer.{starts_in};

use crate::tests::lies_inside;
use answers::Refusal;
use lookup::attached::attached_count;
use model::{Counted, SLOTS};
use regions::slot::region_in;
use rows::slots::order_at;

// Whether the region at a place of list order lies inside a range and is pinned.
fn is_pinned_at(words: &[u64], process: usize, place: usize, start: u64, end: u64) -> bool
    requires words_len { length words.now ≡ word_count }
    requires process_bound { process < 8 }
    requires place_bound { place < 64 }
    ensures { result ≡ pinned_in (machine words.now) process start end (get_or (machine words.now).order (process * 64 + place) 0) }
{
    let slot = order_at(words, process * SLOTS + place) as usize;
    let region = region_in(words, process, slot);
    if !lies_inside(region, start, end) {
        return false;
    }
    0 < region.pins
}

// Whether a region inside a range is pinned.
fn pinned_inside(words: &[u64], process: usize, start: u64, end: u64) -> bool
    requires words_len { length words.now ≡ word_count }
    requires process_bound { process < 8 }
    ensures { result ≡ any (λ s. is_pinned (region_at (machine words.now) process s)) (inside_of (machine words.now) process start end) }
{
    let n = attached_count(words, process);
    for i in 0..n {
        if is_pinned_at(words, process, i, start, end) {
            return true;
        }
    }
    false
}

// Puts the start of the region at a place of list order behind those found, if it lies inside a range; how many are found then.
fn put_start(
    words: &[u64],
    out: &mut [u64],
    process: usize,
    place: usize,
    found: usize,
    start: u64,
    end: u64,
) -> usize
    requires words_len { length words.now ≡ word_count }
    requires out_len { length out.old ≡ 64 }
    requires process_bound { process < 8 }
    requires place_bound { place < 64 }
    requires found_le_place { found ≤ place }
    ensures value { result ≡ found + length (starts_in (machine words.now) process start end (get_or (machine words.now).order (process * 64 + place) 0 ∷ [])) }
    ensures out_after { out.new ≡ sets out.old found (starts_in (machine words.now) process start end (get_or (machine words.now).order (process * 64 + place) 0 ∷ [])) }
{
    let slot = order_at(words, process * SLOTS + place) as usize;
    let region = region_in(words, process, slot);
    if !lies_inside(region, start, end) {
        return found;
    }
    out[found] = region.start.0;
    found + 1
}

// The starts of the regions inside a range, in list order, put into an array of zeros.
fn starts_inside(words: &[u64], out: &mut [u64], process: usize, start: u64, end: u64) -> Counted
    requires words_len { length words.now ≡ word_count }
    requires out_value { out.old ≡ replicate 64 0 }
    requires process_bound { process < 8 }
    ensures { with_starts result out.new ≡ listing (starts_of (machine words.now) process (inside_of (machine words.now) process start end)) }
{
    let n = attached_count(words, process);
    let mut found = 0;
    for i in 0..n {
        found = put_start(words, out, process, i, found, start, end);
    }
    Counted {
        done: Ok(()),
        count: found as u64,
    }
}

// What carve answers, with how its splits ended: the starts are put into an array of zeros.
pub fn carve_answer(
    words: &[u64],
    out: &mut [u64],
    splits: Result<(), Refusal>,
    process: usize,
    start: u64,
    end: u64,
) -> Counted
    requires words_len { length words.now ≡ word_count }
    requires out_value { out.old ≡ replicate 64 0 }
    requires process_bound { process < 8 }
    ensures { with_starts result out.new ≡ carve_answer (machine words.now) process start end splits }
{
    if let Err(refusal) = splits {
        return Counted {
            done: Err(refusal),
            count: 0,
        };
    }
    if pinned_inside(words, process, start, end) {
        return Counted {
            done: Err(Refusal::InUse),
            count: 0,
        };
    }
    starts_inside(words, out, process, start, end)
}
