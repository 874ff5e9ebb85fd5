// The first `count` of the lent rows are a table of segments (RULES X8): found, put in and taken out in place. No call asks anything of its caller.
ghost use Rattle.std.specs.Prelude.{◌≡◌, ltb, length, take};
ghost use Rattle.segment_records.specs.Records.{found_in, inserted, removable, removed};

use crate::by_value::{carried, carrying, end, removes, rows, turns};
use segment::Segment;

// Where a segment stands among the first `count` rows; among all where there are fewer.
pub fn find(segments: &[Segment], count: usize, s: Segment) -> Option<usize>
    ensures { result ≡ found_in (take count segments.now) s }
{
    let looked = rows(segments.len(), count);
    for i in 0..looked {
        if segments[i].is(s) {
            return Some(i);
        }
    }
    None
}

// Puts a segment in at its place in list order; the rows from there on move up by one. Where there is no room nothing changes.
pub fn insert(segments: &mut [Segment], count: usize, s: Segment) -> bool
    ensures { (result ≡ ltb count (length segments.old)) × (segments.new ≡ inserted count s segments.old) }
{
    let n = turns(segments.len(), count);
    let mut c = carrying(s);
    for i in 0..n {
        c = carried(c, i, count, segments[i]);
        segments[i] = c.row;
    }
    0 < n
}

// Takes the segment out that stands at a place; the rows after it move down by one. Where none stands there nothing changes.
pub fn remove(segments: &mut [Segment], count: usize, at: usize) -> bool
    ensures { (result ≡ removable (length segments.old) count at) × (segments.new ≡ removed count at segments.old) }
{
    let n = end(segments.len(), count, at);
    for i in at..n {
        segments[i] = segments[i + 1];
    }
    removes(segments.len(), count, at)
}
