// The soundness test: whether lent memory is a machine that keeps R1 to R6. It takes any words, frames and files, and has
// less than 1 KB of marks on the stack at any time.
#![tactic(auto)]

ghost use Rattle.std.specs.Prelude.{◌≡◌, ◌≤◌, length, cond, Ok, Err};
ghost use Rattle.answers.specs.declared.Refusal.TheVariants.{BadTable};
ghost use Rattle.model.specs.Layout.{word_count, machine};
ghost use Rattle.soundness.specs.SoundLent.{sound_lent};
ghost use Rattle.soundness.specs.Stages.{records_fit, lists_fit, frames_fit};
ghost use Rattle.sound_frames.specs.OnePage.{HoldersFit};

use answers::Refusal;
use rows::WORD_COUNT;
use sound_frames::backings::backings_fit;
use sound_frames::holders::counted;
use sound_frames::onepage::one_page;
use sound_lists::apart::disjoint;
use sound_lists::lists::ordered;
use sound_lists::pages::paged;
use sound_pages::mapped::mapped_fit;
use sound_pages::once::once_a_page;
use sound_rows::entries::entries_fit;
use sound_rows::processes::processes_fit;
use sound_rows::sizes::{files_fit, sized};
use sound_rows::slots::regions_fit;

// Counts, lengths and every row's limits.
// Its own frame: inlined, the stages of the test together exceed the system call's 2 KB of stack.
#[inline(never)]
fn records_fit(words: &[u64], frames: usize, files: usize) -> bool
    requires { length words.now ≡ word_count }
    ensures { result ≡ records_fit (machine words.now) frames files }
{
    if !sized(words, frames) {
        return false;
    }
    if !files_fit(words, files) {
        return false;
    }
    if !processes_fit(words) {
        return false;
    }
    if !regions_fit(words) {
        return false;
    }
    entries_fit(words)
}

// Lists in their orders, segments apart, entries one a page.
// Its own frame: inlined, the stages of the test together exceed the system call's 2 KB of stack.
#[inline(never)]
fn lists_fit(words: &[u64]) -> bool
    requires { length words.now ≡ word_count }
    ensures { result ≡ lists_fit (machine words.now) }
{
    if !ordered(words) {
        return false;
    }
    if !paged(words) {
        return false;
    }
    if !disjoint(words) {
        return false;
    }
    once_a_page(words)
}

// Frames, their backings and who holds them.
// Its own frame: inlined, the stages of the test together exceed the system call's 2 KB of stack.
#[inline(never)]
fn frames_fit(words: &[u64]) -> bool
    requires words_len { length words.now ≡ word_count }
    requires words_bound { (machine words.now).frame_count ≤ 256 }
    ensures { HoldersFit (machine words.now) → result ≡ frames_fit (machine words.now) }
{
    if !backings_fit(words) {
        return false;
    }
    if !counted(words) {
        return false;
    }
    one_page(words)
}

// Whether lent memory is a sound machine.
pub fn is_sound(words: &[u64], frames: &[u8], files: &[u8]) -> bool
    ensures { result ≡ sound_lent words.now frames.now files.now }
{
    if words.len() != WORD_COUNT {
        return false;
    }
    if !records_fit(words, frames.len(), files.len()) {
        return false;
    }
    if !lists_fit(words) {
        return false;
    }
    if !frames_fit(words) {
        return false;
    }
    mapped_fit(words)
}

// BadTable, unless the lent memory is a sound machine.
pub fn check_sound(words: &[u64], frames: &[u8], files: &[u8]) -> Result<(), Refusal>
    ensures { result ≡ cond (sound_lent words.now frames.now files.now) (Ok tt) (Err BadTable) }
{
    if is_sound(words, frames, files) {
        return Ok(());
    }
    Err(Refusal::BadTable)
}
