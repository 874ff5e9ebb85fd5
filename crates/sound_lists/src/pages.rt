// Page order: a process's mapped pages rise, and the rows past them are free.
ghost use Rattle.std.specs.Prelude.{◌≡◌, ◌≤◌, ◌<◌, length, get_or, drop};
ghost use Rattle.model.specs.Layout.{word_count, machine};
ghost use Rattle.laws.specs.Lists.{all, part};
ghost use Rattle.model.specs.Machine.{no_process, no_mapping, mapped_of};
ghost use Rattle.model.specs.SoundTest.{each_process, free_mapping, pagedb};
ghost use Rattle.sound_lists.specs.PageOrder.{rising, follows};

use model::{MAPPED_PAGES, Mapping, PROCESSES};
use paging::search::mapped_count;
use rows::pages::mapping_at;

// Whether the page at a place is above the one before it.
fn page_follows(words: &[u64], process: usize, place: usize) -> bool
    requires words_len { length words.now ≡ word_count }
    requires process_bound { process < 8 }
    requires place_bound { place < 128 }
    ensures { result ≡ follows (part 128 process (machine words.now).mapped) place (get_or (part 128 process (machine words.now).mapped) place no_mapping) }
{
    if place == 0 {
        return true;
    }
    let before = mapping_at(words, process * MAPPED_PAGES + (place - 1));
    let mapping = mapping_at(words, process * MAPPED_PAGES + place);
    before.page.0 < mapping.page.0
}

// Whether the mapped pages of a process rise: each is compared with the one before it.
fn pages_rise(words: &[u64], process: usize) -> bool
    requires words_len { length words.now ≡ word_count }
    requires process_bound { process < 8 }
    ensures { result ≡ rising (mapped_of (machine words.now) process) }
{
    let n = mapped_count(words, process);
    for i in 0..n {
        if !page_follows(words, process, i) {
            return false;
        }
    }
    true
}

// Whether a row is free: all zeros.
fn is_free(row: Mapping) -> bool
    ensures { result ≡ free_mapping row }
{
    if row.page.0 != 0 {
        return false;
    }
    if row.frame.0 != 0 {
        return false;
    }
    row.flags.0 == 0
}

// Whether a process's rows from a place on are free.
fn rows_are_free(words: &[u64], process: usize, from: usize) -> bool
    requires words_len { length words.now ≡ word_count }
    requires process_bound { process < 8 }
    requires from_bound { from ≤ 128 }
    ensures { result ≡ all free_mapping (drop from (part 128 process (machine words.now).mapped)) }
{
    (from..MAPPED_PAGES).all(|i| is_free(mapping_at(words, process * MAPPED_PAGES + i)))
}

// Whether the mapped pages of a process are in page order.
fn process_is_paged(words: &[u64], process: usize) -> bool
    requires words_len { length words.now ≡ word_count }
    requires process_bound { process < 8 }
    ensures { result ≡ pagedb (machine words.now) process (get_or (machine words.now).processes process no_process) }
{
    if !pages_rise(words, process) {
        return false;
    }
    let n = mapped_count(words, process);
    rows_are_free(words, process, n)
}

// Page order of every process.
pub fn paged(words: &[u64]) -> bool
    requires { length words.now ≡ word_count }
    ensures { result ≡ each_process (machine words.now) (pagedb (machine words.now)) }
{
    (0..PROCESSES).all(|i| process_is_paged(words, i))
}
