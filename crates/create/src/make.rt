// A new region made: its run zeroed and claimed, its row put, last in the list.
ghost use Rattle.std.specs.Prelude.{◌≡◌, ◌<◌, length};
ghost use Rattle.model.specs.Layout.{word_count, machine};
ghost use Rattle.model.specs.Calls.{create};
ghost use Rattle.rows.specs.LentMemory.{SoundFrames, Does};
ghost use Rattle.backing.specs.BackingSteps.{found_frame};
ghost use Rattle.create.specs.Made.{RunFits, run_claimed, run_zeroed, Makes};
ghost use Rattle.create.specs.Plans.{PlanFits};

use crate::plan::{Plan, plan_for};
use crate::wanted::placed_at;
use address::{PhysFrame, VirtAddr};
use answers::Refusal;
use backing::holders::claim;
use frames::zero_run;
use model::{Place, Region};
use regions::add::add_region;
use rows::sizes::pages_for;

// The run that a region is made with: its frames zeroed, and a backing of them claimed.
fn take_run(words: &mut [u64], frames: &mut [u8], run: Option<PhysFrame>, count: u64)
    requires words_len { length words.old ≡ word_count }
    requires run_fits { RunFits (found_frame run) count (length frames.old) }
    ensures words_after { machine words.new ≡ run_claimed (machine words.old) (found_frame run) count }
    ensures frames_after { frames.new ≡ run_zeroed frames.old (found_frame run) count }
{
    if let Some(frame) = run {
        zero_run(frames, frame, count as usize);
        claim(words, frame, count);
        return;
    }
}

// Makes a region as it was planned.
fn make(words: &mut [u64], frames: &mut [u8], process: usize, region: Region, plan: Plan)
    requires words_len { length words.old ≡ word_count }
    requires sound_frames { SoundFrames words.old frames.old }
    requires process_bound { process < 8 }
    requires plan_fits { PlanFits (machine words.old) process region plan }
    ensures { Makes process region plan words.old frames.old words.new frames.new }
{
    take_run(words, frames, plan.run, pages_for(region.size));
    let row = placed_at(region, plan.start, plan.run);
    add_region(words, process, plan.slot, row);
}

// Creates a region of a sound machine.
pub fn create(
    words: &mut [u64],
    frames: &mut [u8],
    process: u64,
    place: Place,
    eager: bool,
    region: Region,
) -> Result<VirtAddr, Refusal>
    requires words_len { length words.old ≡ word_count }
    requires sound_frames { SoundFrames words.old frames.old }
    ensures { Does (λ s. create s process place eager region) words.old frames.old words.new frames.new result }
{
    let plan = plan_for(&words[..], process, place, eager, region)?;
    make(words, frames, process as usize, region, plan);
    Ok(plan.start)
}
