// Sizes in pages.
ghost use Rattle.std.specs.Prelude.{◌≡◌, ◌*◌, ◌^◌, ◌≤◌};
ghost use Rattle.model.specs.Lookup.{pages_for};

use address::{PAGE_SIZE, USER_END};

// How many pages hold a number of bytes, with no sum that could be too large.
pub fn pages_for(bytes: u64) -> u64
    ensures { result ≡ pages_for bytes }
{
    bytes.div_ceil(PAGE_SIZE)
}

// A size rounded up to pages; a damaged row's, past all user addresses, stays as it is.
pub fn segment_len(size: u64) -> u64
    ensures { size ≤ 2 ^ 47 → result ≡ pages_for size * 4096 }
{
    if USER_END < size {
        return size;
    }
    pages_for(size) * PAGE_SIZE
}
