// A region removed from its process.
ghost use Rattle.std.specs.Prelude.{◌≡◌, ◌<◌, length};
ghost use Rattle.model.specs.Layout.{word_count, machine};
ghost use Rattle.remove.specs.Removed.{Removed};

use crate::drop::drop_region;
use paging::mapper::unmap_from;
use regions::detach::detach;
use regions::slot::region_in;

// Unmaps and detaches the region in a slot, and drops it unless it is pinned: the Rust's remove_region.
pub fn remove_region(words: &mut [u64], process: usize, slot: usize)
    requires words_len { length words.old ≡ word_count }
    requires process_bound { process < 8 }
    requires slot_bound { slot < 64 }
    ensures { Removed (machine words.old) process slot (machine words.new) }
{
    let region = region_in(&words[..], process, slot);
    let pins = region.pins;
    unmap_from(words, process, region);
    detach(words, process, slot);
    if 0 < pins {
        return;
    }
    drop_region(words, process, slot);
}
