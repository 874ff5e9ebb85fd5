// The free frames among the rows of backings, lowest first, found in one pass.
ghost use Rattle.std.specs.Prelude.{◌≡◌, ◌+◌, ◌<◌, ◌≤◌, length, if◌then◌else◌, nat_eq};
ghost use Rattle.model.specs.Layout.{word_count, machine};
ghost use Rattle.backing.specs.Pass.{cover};
ghost use Rattle.backing.specs.BackingSteps.{framed, lowest_free, found_frame, lowest_fit};

use address::PhysFrame;
use model::FRAMES;
use rows::backings::{backing_at, frame_count};

// How many frames have a row: all of a sound machine's.
pub fn frame_rows(words: &[u64]) -> usize
    requires { length words.now ≡ word_count }
    ensures value { result ≡ length (framed (machine words.now)) }
    ensures upper_bound { result ≤ 256 }
{
    frame_count(words).min(FRAMES as u64) as usize
}

// How many frames from a row on are in a backing: `before` counts from the row before, `len` is the row's own.
fn covered_from(before: u64, len: u64) -> u64
    ensures { result ≡ cover before len }
{
    before.saturating_sub(1).max(len)
}

// The lowest free frame from `from` on, the number of frames where there is none. Backings before `from` are taken to end there.
pub fn lowest_free(words: &[u64], from: PhysFrame) -> PhysFrame
    requires { length words.now ≡ word_count }
    ensures { result.0 ≡ lowest_free from.0 (framed (machine words.now)) }
{
    let rows = frame_rows(words);
    let mut covered = 0;
    for i in from.0 as usize..rows {
        let b = backing_at(words, i);
        covered = covered_from(covered, b.len);
        if covered == 0 {
            return PhysFrame(i as u64);
        }
    }
    PhysFrame(rows as u64)
}

// Where a run of free frames up to frame i starts: past i where i is in a backing.
fn run_start(start: usize, i: usize, covered: u64) -> usize
    requires i_bound { i < 256 }
    requires start_le_i { start ≤ i }
    ensures value { result ≡ (if nat_eq covered 0 then start else i + 1) }
    ensures upper_bound { result ≤ i + 1 }
{
    if covered == 0 { start } else { i + 1 }
}

// The lowest n free frames in a row: the first of them. Of no frames there is no run.
pub fn lowest_run(words: &[u64], n: u64) -> Option<PhysFrame>
    requires { length words.now ≡ word_count }
    ensures { found_frame result ≡ lowest_fit (framed (machine words.now)) n }
{
    if n == 0 {
        return None;
    }
    let rows = frame_rows(words);
    let mut covered = 0;
    let mut start = 0;
    for i in 0..rows {
        let b = backing_at(words, i);
        covered = covered_from(covered, b.len);
        start = run_start(start, i, covered);
        if (i + 1 - start) as u64 == n {
            return Some(PhysFrame(start as u64));
        }
    }
    None
}
