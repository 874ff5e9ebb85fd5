// The search for the lowest free start, over a table of words: two a row, start and length.
#![tactic(auto)]

ghost use Rattle.std.specs.Prelude.{◌≡◌, ◌+◌, ◌*◌, ◌≤◌, ◌<◌, length};
ghost use Rattle.segment_search.specs.Search.{first_over, ahead, search};
ghost use Rattle.segment_search.specs.SegmentWords.{table_of};

use address::VirtAddr;
use segment::Segment;

// The first of `count` rows that holds a byte from `first` to `last`.
pub fn find_overlapping_at(words: &[u64], count: usize, first: u64, last: u64) -> Option<Segment>
    requires { count * 2 ≤ length words.now }
    ensures { result ≡ first_over (table_of words.now count) first last }
{
    for i in 0..count {
        let s = Segment {
            start: VirtAddr(words[i * 2]),
            len: words[i * 2 + 1],
        };
        if s.overlaps(first, last) {
            return Some(s);
        }
    }
    None
}

// The lowest start from `start` on with `len` bytes free up to `mem_last`. It starts over just past the segment in its way;
// the number of segments still ahead falls each time.
pub fn lowest_start(
    words: &[u64],
    count: usize,
    mem_last: u64,
    len: u64,
    start: u64,
    restarts: u64,
) -> Option<(u64, u64)>
    requires count_in_bounds { count * 2 ≤ length words.now }
    requires len_nonzero { 0 < len }
    requires start_bound { restarts + ahead (table_of words.now count) start ≤ count }
    ensures { result ≡ search (table_of words.now count) mem_last len start restarts }
{
    if mem_last < start {
        return None;
    }
    if mem_last - start < len - 1 {
        return None;
    }
    let Some(s) = find_overlapping_at(words, count, start, start + (len - 1)) else {
        return Some((start, restarts));
    };
    let past = s.len;
    if mem_last - s.start.0 < past {
        return None;
    }
    lowest_start(words, count, mem_last, len, s.start.0 + past, restarts + 1)
}
