// Whether all that hold a backing hold it at one page, all Shared or none: each is compared with the first, a mark a frame.
ghost use Rattle.std.specs.Prelude.{◌≡◌, true, ◌<◌, length, get_or};
ghost use Rattle.model.specs.Layout.{word_count, machine};
ghost use Rattle.laws.specs.Tests.{all_pairs};
ghost use Rattle.model.specs.Sound.{holds};
ghost use Rattle.model.specs.SoundTest.{alike};
ghost use Rattle.sound_frames.specs.Held.{no_held, held_rows};
ghost use Rattle.sound_frames.specs.OnePage.{HoldersFit, alike_held, first_mark};
ghost use Rattle.sound_frames.specs.OnePage.{Firsts, Compared};

use crate::held::{Held, by_entry, by_range, held_by};
use model::{FRAMES, FREE};
use rows::pages::entry_at;
use rows::slots::region_at;

// Whether the holders of a backing hold it alike, where entries and regions fit.
pub fn one_page(words: &[u64]) -> bool
    requires { length words.now ≡ word_count }
    ensures { HoldersFit (machine words.now) → result ≡ all_pairs (λ h. true) alike (holds (machine words.now)) }
{
    let mut marks: [u16; FRAMES] = [0; FRAMES];
    if !entries_alike(words, &mut marks) {
        return false;
    }
    ranges_alike(words, &mut marks)
}

// Compares the entries, holders 0 to 511, each with the first that holds its frame. Entries and ranges have a loop each, as in `tally`.
fn entries_alike(words: &[u64], marks: &mut [u16]) -> bool
    requires words_len { length words.now ≡ word_count }
    requires firsts { Firsts (held_rows (machine words.now)) marks.old 0 }
    ensures { Compared (held_rows (machine words.now)) marks.new 512 result }
{
    for k in 0..512u16 {
        let entry = entry_at(words, k as usize);
        let h = by_entry(entry);
        let frame = h.frame;
        if frame == FRAMES {
            continue;
        }
        let mark = first_mark(marks[frame], k + 1);
        marks[frame] = mark;
        if !holds_as(words, (mark - 1) as usize, h) {
            return false;
        }
    }
    true
}

// Compares the ranges, holders 512 to 1023.
fn ranges_alike(words: &[u64], marks: &mut [u16]) -> bool
    requires words_len { length words.now ≡ word_count }
    requires firsts { Firsts (held_rows (machine words.now)) marks.old 512 }
    ensures { Compared (held_rows (machine words.now)) marks.new 1024 result }
{
    for k in 512..1024u16 {
        let region = region_at(words, (k - 512) as usize);
        if region.kind == FREE {
            continue;
        }
        let h = by_range(region);
        let frame = h.frame;
        if frame == FRAMES {
            continue;
        }
        let mark = first_mark(marks[frame], k + 1);
        marks[frame] = mark;
        if !holds_as(words, (mark - 1) as usize, h) {
            return false;
        }
    }
    true
}

// The mark of a frame: the first holder's number plus 1, which is this one's if there was none.
fn first_mark(mark: u16, number: u16) -> u16
    ensures { result ≡ first_mark mark number }
{
    if mark == 0 {
        return number;
    }
    mark
}

// Whether a holder of a frame holds it as the first holder does.
fn holds_as(words: &[u64], first: usize, h: Held) -> bool
    requires words_len { length words.now ≡ word_count }
    requires first_bound { first < 1024 }
    ensures { result ≡ alike_held (get_or (held_rows (machine words.now)) first no_held) h }
{
    let x = held_by(words, first);
    if h.page != x.page {
        return false;
    }
    h.shared == x.shared
}
