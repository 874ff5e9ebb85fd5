// Where a new region goes and what backs it, found once, or why it is refused.
ghost use Rattle.std.specs.Prelude.{◌≡◌, ◌&&◌, not, ◌^◌, ◌<◌, ◌≤◌, length};
ghost use Rattle.model.specs.Layout.{word_count, machine};
ghost use Rattle.model.specs.Lookup.{is_found};
ghost use Rattle.model.specs.Create.{run_needed, spot_refusal};
ghost use Rattle.rows.specs.LentMemory.{SoundWords};
ghost use Rattle.backing.specs.BackingSteps.{found_frame};
ghost use Rattle.create.specs.Plans.{run_for, searched, planned};

use crate::refusals::request_refusal;
use address::{PhysFrame, VirtAddr};
use answers::Refusal;
use backing::free::lowest_run;
use lookup::search::free_slot;
use model::{Place, Region, SHARED};
use reserve::lowest::spot;
use rows::sizes::{pages_for, segment_len};

// The start of a new region, its slot, and the first frame of its range, if it is to have one.
#[derive(Clone, Copy)]
pub struct Plan {
    pub start: VirtAddr,
    pub slot: usize,
    pub run: Option<PhysFrame>,
}

// Whether a region is made with a range.
fn is_run_needed(eager: bool, region: Region) -> bool
    ensures { result ≡ run_needed eager region }
{
    if eager {
        return true;
    }
    region.kind == SHARED
}

// The lowest run that fits, where the region is made with a range.
fn run_for(words: &[u64], eager: bool, region: Region) -> Option<PhysFrame>
    requires words_len { length words.now ≡ word_count }
    requires sound_words { SoundWords words.now }
    ensures { found_frame result ≡ run_for (machine words.now) eager region }
{
    if is_run_needed(eager, region) {
        return lowest_run(words, pages_for(region.size));
    }
    None
}

// Whether the range that a region is made with was not found.
fn lacks_run(eager: bool, region: Region, run: Option<PhysFrame>) -> bool
    ensures { result ≡ run_needed eager region && not (is_found (found_frame run)) }
{
    if run.is_some() {
        return false;
    }
    is_run_needed(eager, region)
}

// Which refusal says that there is no spot.
fn spot_refusal(place: Place) -> Refusal
    ensures { result ≡ spot_refusal place }
{
    match place {
        Place::At(_) => Refusal::SegmentReserved,
        Place::Lowest => Refusal::NoSpace,
    }
}

// The searches, for what may be asked for, then their refusals in order: no spot, no run, no slot.
fn search(
    words: &[u64],
    process: usize,
    place: Place,
    eager: bool,
    region: Region,
) -> Result<Plan, Refusal>
    requires words_len { length words.now ≡ word_count }
    requires sound_words { SoundWords words.now }
    requires process_bound { process < 8 }
    requires size_bound { region.size ≤ 2 ^ 47 }
    ensures { result ≡ searched (machine words.now) process place eager region }
{
    let at = spot(words, process, place, segment_len(region.size));
    let run = run_for(words, eager, region);
    let free = free_slot(words, process);
    let no_spot = spot_refusal(place);
    let start = at.ok_or(no_spot)?;
    if lacks_run(eager, region, run) {
        return Err(Refusal::OutOfMemory);
    }
    let slot = free.ok_or(Refusal::TableFull)?;
    Ok(Plan { start, slot, run })
}

// The refusals of creation in the order of their numbers, or how it goes on.
pub(crate) fn plan_for(
    words: &[u64],
    process: u64,
    place: Place,
    eager: bool,
    region: Region,
) -> Result<Plan, Refusal>
    requires words_len { length words.now ≡ word_count }
    requires sound_words { SoundWords words.now }
    ensures { result ≡ planned (machine words.now) process place eager region }
{
    request_refusal(words, process, place, region)?;
    search(words, process as usize, place, eager, region)
}
