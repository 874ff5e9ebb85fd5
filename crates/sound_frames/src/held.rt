// What entries and ranges hold, numbered: the 512 entries, then the 512 region slots.
ghost use Rattle.std.specs.Prelude.{◌≡◌, ◌&&◌, ◌<◌, length, get_or, eqb};
ghost use Rattle.model.specs.Layout.{word_count, machine};
ghost use Rattle.model.specs.Lookup.{is_used, is_ranged};
ghost use Rattle.model.specs.Create.{one};
ghost use Rattle.sound_frames.specs.Held.{place_of, entry_held, range_held, held_rows, no_held};

use address::Page;
use model::{ENTRIES, Entry, FRAMES, FREE, Region, SHARED};
use rows::pages::entry_at;
use rows::slots::region_at;

// How many there are.
pub(crate) const HOLDERS: usize = 1024;

// What an entry or a range holds: the backing's first frame, 256 where it holds none or none that can be marked, the page that it
// is held at, and 1 for a Shared region. Numbers, not an Option and a bool: they are counted and
// compared as those of the model's `Hold` are.
#[derive(Clone, Copy)]
pub struct Held {
    pub frame: usize,
    pub page: u64,
    pub shared: u64,
}

// What holder k holds.
pub fn held_by(words: &[u64], k: usize) -> Held
    requires words_len { length words.now ≡ word_count }
    requires k_bound { k < 1024 }
    ensures value { result ≡ get_or (held_rows (machine words.now)) k no_held }
    ensures frame_bound { result.frame < 257 }
{
    if k < ENTRIES {
        let e = entry_at(words, k);
        return by_entry(e);
    }
    let r = region_at(words, k - ENTRIES);
    by_range(r)
}

// What an entry holds.
pub fn by_entry(e: Entry) -> Held
    ensures value { result ≡ entry_held e }
    ensures frame_bound { result.frame < 257 }
{
    let frame = place_of(e.owner != 0, e.frame.0);
    Held {
        frame,
        page: e.page.0,
        shared: 0,
    }
}

// What the region in a slot holds.
pub fn by_range(region: Region) -> Held
    ensures value { result ≡ range_held region }
    ensures frame_bound { result.frame < 257 }
{
    let frame = place_of(has_range(region), region.range.0);
    let shared = one_if_shared(region.kind);
    let page = Page::containing_address(region.start);
    Held {
        frame,
        page: page.0,
        shared,
    }
}

// Whether a slot is in use by a region with a range.
fn has_range(region: Region) -> bool
    ensures { result ≡ (is_used region && is_ranged region) }
{
    if region.kind == FREE {
        return false;
    }
    region.ranged == 1
}

fn one_if_shared(kind: u64) -> u64
    ensures { result ≡ one (eqb kind 3) }
{
    if kind == SHARED {
        return 1;
    }
    0
}

// The mark of a frame, if it is held.
fn place_of(is_held: bool, frame: u64) -> usize
    ensures value { result ≡ place_of is_held frame }
    ensures upper_bound { result < 257 }
{
    if !is_held {
        return FRAMES;
    }
    if frame < FRAMES as u64 {
        return frame as usize;
    }
    FRAMES
}
