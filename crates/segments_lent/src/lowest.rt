// The lowest free start over the rows in list order: one pass, which ends at the first row past the try.
ghost use Rattle.std.specs.Prelude.{◌≡◌, true, ◌+◌, ◌-◌, ◌≤◌, ◌<◌, length};
ghost use Rattle.segment.specs.Form.{start_of};
ghost use Rattle.segment_search.specs.Search.{search};
ghost use Rattle.segments.specs.Table.{held, arena, soundb};
ghost use Rattle.segments.specs.Calls.{lowest};
ghost use Rattle.segments_lent.specs.LentWords.{manager_of};
ghost use Rattle.segments_lent.specs.OnePass.{past_row};

use crate::table::row_at;
use segment::Segment;

// The start that is tried, and how often the search started over.
#[derive(Clone, Copy)]
pub struct Probe {
    pub start: u64,
    pub restarts: u64,
}

// Past a row that begins no later than the try ends: the same try, or the one from the row's end on.
fn past(s: Segment, probe: Probe, len: u64, mem_last: u64) -> Option<Probe>
    requires len_nonzero { 0 < len }
    requires len_bound { probe.start + (len - 1) ≤ mem_last }
    requires s_bound { start_of s ≤ probe.start + (len - 1) }
    requires restarts_bound { probe.restarts < 64 }
    ensures { result ≡ past_row s probe len mem_last }
{
    if !s.overlaps(probe.start, probe.start + (len - 1)) {
        return Some(probe);
    }
    let past = s.len;
    if mem_last - s.start.0 < past {
        return None;
    }
    let start = s.start.0 + past;
    if mem_last - start < len - 1 {
        return None;
    }
    Some(Probe {
        start,
        restarts: probe.restarts + 1,
    })
}

fn search_rows(words: &[u64], len: u64, mem_last: u64) -> Option<(u64, u64)>
    requires words_len { length words.now ≡ 131 }
    requires words_value { soundb (manager_of words.now) ≡ true }
    requires len_nonzero { 0 < len }
    requires len_bound { start_of (arena (manager_of words.now)) + (len - 1) ≤ mem_last }
    ensures { result ≡ search (held (manager_of words.now)) mem_last len (start_of (arena (manager_of words.now))) 0 }
{
    let n = words[2] as usize;
    let mut probe = Probe {
        start: words[0],
        restarts: 0,
    };
    for i in 0..n {
        let s = row_at(words, i);
        if probe.start + (len - 1) < s.start.0 {
            return Some((probe.start, probe.restarts));
        }
        probe = past(s, probe, len, mem_last)?;
    }
    Some((probe.start, probe.restarts))
}

// The lowest free start for `len` bytes in the manager's arena.
pub fn lowest_free(words: &[u64], len: u64) -> Option<(u64, u64)>
    requires words_len { length words.now ≡ 131 }
    requires words_value { soundb (manager_of words.now) ≡ true }
    ensures { result ≡ lowest (manager_of words.now) len }
{
    if len == 0 {
        return None;
    }
    if words[1] < len {
        return None;
    }
    search_rows(words, len, words[0] + (words[1] - 1))
}
