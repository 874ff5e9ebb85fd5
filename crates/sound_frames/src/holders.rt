// Whether every backing's holders are as many as hold it: entries and ranges are counted afresh, a mark a frame.
ghost use Rattle.std.specs.Prelude.{◌≡◌, ◌&&◌, length};
ghost use Rattle.model.specs.Layout.{word_count, machine};
ghost use Rattle.model.specs.SoundTest.{r3b};
ghost use Rattle.sound_frames.specs.Tally.{Tallied, held_times, free_unheld};
ghost use Rattle.sound_frames.specs.Tally.{Counts};

use crate::held::{HOLDERS, by_entry, by_range};
use model::{Backing, ENTRIES, FRAMES, FREE};
use rows::backings::backing_at;
use rows::pages::entry_at;
use rows::slots::region_at;

// Whether every backing has its holders, at least one, and a row without a backing has none.
pub fn counted(words: &[u64]) -> bool
    requires { length words.now ≡ word_count }
    ensures { result ≡ (r3b (machine words.now) && free_unheld (machine words.now)) }
{
    let counts = tally(words);
    for f in 0..FRAMES {
        let b = backing_at(words, f);
        if !is_held(b, counts[f] as u64) {
            return false;
        }
    }
    true
}

// Whether a row is a backing with so many holders, at least one, or none without holders.
fn is_held(b: Backing, times: u64) -> bool
    ensures { result ≡ held_times times b }
{
    if b.len == 0 {
        return b.holders == 0;
    }
    if b.holders == 0 {
        return false;
    }
    b.holders == times
}

// How many hold each frame.
fn tally(words: &[u64]) -> [u16; FRAMES]
    requires { length words.now ≡ word_count }
    ensures result_len { length result ≡ 256 }
    ensures tallied { Tallied (machine words.now) result }
{
    let mut counts = [0; FRAMES];
    tally_entries(words, &mut counts);
    tally_ranges(words, &mut counts);
    counts
}

// Counts the entries, holders 0 to 511. Entries and ranges have a loop each, not one over `held_by`: a turn then reads one table, with no
// test of which.
fn tally_entries(words: &[u64], counts: &mut [u16])
    requires words_len { length words.now ≡ word_count }
    requires counts { Counts words.now counts.old 0 }
    ensures { Counts words.now counts.new 512 }
{
    for k in 0..ENTRIES {
        let entry = entry_at(words, k);
        let h = by_entry(entry);
        let frame = h.frame;
        if frame == FRAMES {
            continue;
        }
        counts[frame] += 1;
    }
}

// Counts the ranges, holders 512 to 1023. Most slots are free, and are passed at once.
fn tally_ranges(words: &[u64], counts: &mut [u16])
    requires words_len { length words.now ≡ word_count }
    requires counts { Counts words.now counts.old 512 }
    ensures { Counts words.now counts.new 1024 }
{
    for k in ENTRIES..HOLDERS {
        let region = region_at(words, k - ENTRIES);
        if region.kind == FREE {
            continue;
        }
        let h = by_range(region);
        let frame = h.frame;
        if frame == FRAMES {
            continue;
        }
        counts[frame] += 1;
    }
}
