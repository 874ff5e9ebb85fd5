// Looking: the region at an address, whether regions cover a range, the list of regions.
ghost use Rattle.std.specs.Prelude.{◌≡◌, length};
ghost use Rattle.model.specs.Layout.{word_count};
ghost use Rattle.model.specs.Calls.{region, covers, regions};
ghost use Rattle.rows.specs.LentMemory.{SoundWords, OnSound};
ghost use Rattle.regions.specs.Starts.{with_starts};

use crate::cover::covers;
use crate::list::{put_starts, put_zeros};
use address::VirtAddr;
use answers::Refusal;
use lookup::named::{process_refusal, region_named};
use model::{Counted, SLOTS};
use rows::slots::region_at;

// The start of the region at an address, of a sound machine.
pub fn region_core(words: &[u64], process: u64, addr: VirtAddr) -> Result<VirtAddr, Refusal>
    requires words_len { length words.now ≡ word_count }
    requires sound_words { SoundWords words.now }
    ensures { OnSound (λ s. region s process addr.0) words.now result }
{
    let slot = region_named(words, process, addr)?;
    let row = region_at(words, process as usize * SLOTS + slot);
    Ok(row.start)
}

// Whether a process's regions cover a range.
pub fn covers_core(words: &[u64], process: u64, start: u64, end: u64) -> Result<bool, Refusal>
    requires { length words.now ≡ word_count }
    ensures { OnSound (λ s. covers s process start end) words.now result }
{
    process_refusal(words, process)?;
    Ok(covers(words, process as usize, start, end))
}

// The starts of a process's regions, in list order, put into lent memory.
pub fn regions_core(words: &[u64], starts: &mut [u64], process: u64) -> Counted
    requires words_len { length words.now ≡ word_count }
    requires starts_len { length starts.old ≡ 64 }
    ensures { OnSound (λ s. regions s process) words.now (with_starts result starts.new) }
{
    put_zeros(starts);
    match process_refusal(words, process) {
        Err(refusal) => Counted {
            done: Err(refusal),
            count: 0,
        },
        Ok(()) => put_starts(words, starts, process as usize),
    }
}
