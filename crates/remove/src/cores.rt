// The cores of remove and clear, on a machine that has been tested sound.
ghost use Rattle.std.specs.Prelude.{◌≡◌, length};
ghost use Rattle.model.specs.Layout.{word_count};
ghost use Rattle.model.specs.Calls as calls;
ghost use Rattle.rows.specs.LentMemory.{SoundWords, DoesWords};

use crate::clear::clear;
use crate::region::remove_region;
use address::VirtAddr;
use answers::Refusal;
use lookup::named::{process_refusal, region_named};

// Removes the region at an address: the core of the call.
pub fn remove_core(words: &mut [u64], process: u64, addr: VirtAddr) -> Result<(), Refusal>
    requires words_len { length words.old ≡ word_count }
    requires sound_words { SoundWords words.old }
    ensures { DoesWords (λ s. calls.remove s process addr.0) words.old words.new result }
{
    let slot = region_named(&words[..], process, addr)?;
    remove_region(words, process as usize, slot);
    Ok(())
}

// Removes all regions of a process: the core of the call.
pub fn clear_core(words: &mut [u64], process: u64) -> Result<(), Refusal>
    requires { length words.old ≡ word_count }
    ensures { DoesWords (λ s. calls.clear s process) words.old words.new result }
{
    process_refusal(&words[..], process)?;
    clear(words, process as usize);
    Ok(())
}
