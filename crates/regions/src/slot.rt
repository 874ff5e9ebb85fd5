// The region in a process's slot, whatever the slot's number.
ghost use Rattle.std.specs.Prelude.{◌≡◌, ◌<◌, length};
ghost use Rattle.model.specs.Layout.{word_count, machine};
ghost use Rattle.model.specs.Machine.{no_region, region_at};

use address::{PageTableFlags, PhysFrame, VirtAddr};
use model::{COPY_ON_WRITE, FREE, REGIONS, Region, SLOTS};
use rows::slots::region_at;

// A free slot's row.
pub fn no_region() -> Region
    ensures { result ≡ no_region }
{
    Region {
        kind: FREE,
        start: VirtAddr(0),
        size: 0,
        flags: PageTableFlags(0),
        fork: COPY_ON_WRITE,
        per_thread: 0,
        pins: 0,
        file: 0,
        offset: 0,
        length: 0,
        ranged: 0,
        range: PhysFrame(0),
    }
}

// The region in a process's slot; past the last row there is none.
pub fn region_in(words: &[u64], process: usize, slot: usize) -> Region
    requires words_len { length words.now ≡ word_count }
    requires process_bound { process < 8 }
    ensures { result ≡ region_at (machine words.now) process slot }
{
    if slot < REGIONS - process * SLOTS {
        return region_at(words, process * SLOTS + slot);
    }
    no_region()
}
