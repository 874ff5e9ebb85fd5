// Region slots, 512 rows of 12 words from word 40, and list order, 512 words from word 6184.
ghost use Rattle.std.specs.Prelude.{◌≡◌, ◌<◌, length, get_or, set};
ghost use Rattle.model.specs.Layout.{word_count, machine};
ghost use Rattle.model.specs.Machine.{no_region, with_regions};
ghost use Rattle.rows.specs.With.{with_order_table};

use crate::{ORDER_AT, SLOT_WORDS, SLOTS_AT};
use address::{PageTableFlags, PhysFrame, VirtAddr};
use model::Region;

// The row of a region slot: slot s of process p is row p * 64 + s.
pub fn region_at(words: &[u64], i: usize) -> Region
    requires words_len { length words.now ≡ word_count }
    requires i_bound { i < 512 }
    ensures { result ≡ get_or (machine words.now).regions i no_region }
{
    let at = SLOTS_AT + i * SLOT_WORDS;
    Region {
        kind: words[at],
        start: VirtAddr(words[at + 1]),
        size: words[at + 2],
        flags: PageTableFlags(words[at + 3]),
        fork: words[at + 4],
        per_thread: words[at + 5],
        pins: words[at + 6],
        file: words[at + 7],
        offset: words[at + 8],
        length: words[at + 9],
        ranged: words[at + 10],
        range: PhysFrame(words[at + 11]),
    }
}

// Puts a region slot's row.
pub fn put_region(words: &mut [u64], i: usize, row: Region)
    requires words_len { length words.old ≡ word_count }
    requires i_bound { i < 512 }
    ensures { machine words.new ≡ with_regions (machine words.old) (set (machine words.old).regions i row) }
{
    let at = SLOTS_AT + i * SLOT_WORDS;
    words[at] = row.kind;
    words[at + 1] = row.start.0;
    words[at + 2] = row.size;
    words[at + 3] = row.flags.0;
    words[at + 4] = row.fork;
    words[at + 5] = row.per_thread;
    words[at + 6] = row.pins;
    words[at + 7] = row.file;
    words[at + 8] = row.offset;
    words[at + 9] = row.length;
    words[at + 10] = row.ranged;
    words[at + 11] = row.range.0;
}

// The slot at a place of list order: place s of process p is row p * 64 + s.
pub fn order_at(words: &[u64], i: usize) -> u64
    requires words_len { length words.now ≡ word_count }
    requires i_bound { i < 512 }
    ensures { result ≡ get_or (machine words.now).order i 0 }
{
    words[ORDER_AT + i]
}

// Puts a slot at a place of list order.
pub fn put_order(words: &mut [u64], i: usize, slot: u64)
    requires words_len { length words.old ≡ word_count }
    requires i_bound { i < 512 }
    ensures { machine words.new ≡ with_order_table (machine words.old) (set (machine words.old).order i slot) }
{
    words[ORDER_AT + i] = slot;
}
