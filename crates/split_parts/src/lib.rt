// The parts of a region that is split at an address: the Rust's split of the three kinds.
#![tactic(auto)]

ghost use Rattle.std.specs.Prelude.{◌≡◌, ◌+◌, ◌-◌, ◌*◌, ◌<◌, ◌^◌};
ghost use Rattle.model.specs.Lookup.{is_file};
ghost use Rattle.model.specs.Create.{one};
ghost use Rattle.model.specs.Carve.{strictly_inside, low_part, high_part};

use address::VirtAddr;
use model::{FILE_BACKED, Region};

// Where the bytes of a part begin in the file, which lies some bytes past the region's start.
fn offset_past(region: Region, past: u64) -> u64
    requires { region.offset + past < 2 ^ 64 }
    ensures { result ≡ region.offset + one (is_file region) * past }
{
    if region.kind == FILE_BACKED {
        return region.offset + past;
    }
    region.offset
}

// Whether an address splits a region: above its start, below its exact end.
pub fn is_strictly_inside(region: Region, at: u64) -> bool
    ensures { result ≡ strictly_inside region at }
{
    if at <= region.start.0 {
        return false;
    }
    at - region.start.0 < region.size
}

// The part below an address.
pub fn low_part(region: Region, at: u64) -> Region
    ensures { result ≡ low_part region at }
{
    let size = at.saturating_sub(region.start.0);
    Region {
        size,
        length: region.length.min(size),
        ..region
    }
}

// The part from an address on.
pub fn high_part(region: Region, at: u64) -> Region
    requires { region.offset + (at - region.start.0) < 2 ^ 64 }
    ensures { result ≡ high_part region at }
{
    let low = at.saturating_sub(region.start.0);
    Region {
        start: VirtAddr(at),
        size: region.size.saturating_sub(low),
        offset: offset_past(region, low),
        length: region.length.saturating_sub(low),
        ..region
    }
}
