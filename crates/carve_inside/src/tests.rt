// Whether a region overlaps a range, lies inside it, or only in part. No sum is made, which could be too large.
ghost use Rattle.std.specs.Prelude.{◌≡◌};
ghost use Rattle.model.specs.Lookup.{overlaps, lies_inside};
ghost use Rattle.carve_inside.specs.InPart.{in_part};

use model::Region;

// The Rust's overlaps.
fn overlaps(region: Region, start: u64, end: u64) -> bool
    ensures { result ≡ overlaps region start end }
{
    if end <= region.start.0 {
        return false;
    }
    if start < region.start.0 {
        return true;
    }
    start - region.start.0 < region.size
}

// The Rust's lies_inside.
pub fn lies_inside(region: Region, start: u64, end: u64) -> bool
    ensures { result ≡ lies_inside region start end }
{
    if region.start.0 < start {
        return false;
    }
    if end < region.start.0 {
        return false;
    }
    region.size <= end - region.start.0
}

// Whether a region overlaps a range without lying inside it.
pub fn is_in_part(region: Region, start: u64, end: u64) -> bool
    ensures { result ≡ in_part region start end }
{
    if !overlaps(region, start, end) {
        return false;
    }
    !lies_inside(region, start, end)
}
