// The manager's calls in place on lent words: any words, any arguments; a refusal leaves the words as they were (RULES S).
ghost use Rattle.std.specs.Prelude.{◌≡◌, Ok};
ghost use Rattle.segments.specs.Table.{held};
ghost use Rattle.segments.specs.Calls.{insideb, overlapsb};
ghost use Rattle.segments_lent.specs.LentWords.{manager_of};
ghost use Rattle.segments_lent.specs.LentCalls.{left, new_lent, reserve_lent, mark_lent, release_lent, split_lent, checked_lent, point_lent};

use crate::lowest::lowest_free;
use crate::table::{insert, insert_at, is_sound, place_in, put_row, remove_at};
use address::VirtAddr;
use answers::Refusal;
use segment::Segment;
use segment_search::find_overlapping_at;

// Makes a manager with no segments over an arena. Refuses BadTable for words of another length, BadAddress and BadRange.
pub fn new(words: &mut [u64], mem_start: VirtAddr, mem_size: u64) -> Result<(), Refusal>
    ensures { left result words.new ≡ new_lent words.old mem_start mem_size }
{
    if words.len() != 131 {
        return Err(Refusal::BadTable);
    }
    Segment::new(mem_start, mem_size).form()?;
    words[0] = mem_start.0;
    words[1] = mem_size;
    for i in 2..131 {
        words[i] = 0;
    }
    Ok(())
}

// Reserves the lowest free start of the arena. Refuses BadTable, NoSpace and TableFull.
pub fn reserve_bytes(words: &mut [u64], len: u64) -> Result<(Segment, u64), Refusal>
    ensures { left result words.new ≡ reserve_lent words.old len }
{
    if !is_sound(&words[..]) {
        return Err(Refusal::BadTable);
    }
    let (start, restarts) = lowest_free(&words[..], len).ok_or(Refusal::NoSpace)?;
    if 64 <= words[2] {
        return Err(Refusal::TableFull);
    }
    let segment = Segment {
        start: VirtAddr(start),
        len,
    };
    insert(words, segment);
    Ok((segment, restarts))
}

// Reserves a given segment, in the arena or not. Refuses BadTable, BadAddress, BadRange, SegmentReserved and TableFull.
pub fn mark_as_reserved(words: &mut [u64], segment: Segment) -> Result<(), Refusal>
    ensures { left result words.new ≡ mark_lent words.old segment }
{
    checked(&words[..], segment)?;
    if overlaps_any(&words[..], segment) {
        return Err(Refusal::SegmentReserved);
    }
    let Err(at) = place_in(&words[..], segment) else {
        return Ok(());
    };
    if 64 <= words[2] {
        return Err(Refusal::TableFull);
    }
    insert_at(words, at, segment);
    Ok(())
}

// Gives a segment up, if it is held exactly so. Refuses BadTable, BadAddress and BadRange.
pub fn release(words: &mut [u64], segment: Segment) -> Result<bool, Refusal>
    ensures { left result words.new ≡ release_lent words.old segment }
{
    checked(&words[..], segment)?;
    let Ok(at) = place_in(&words[..], segment) else {
        return Ok(false);
    };
    remove_at(words, at);
    Ok(true)
}

// Replaces a held segment by the two that meet at `at`. Refuses BadTable, BadAddress, BadRange, InvalidSplitPoint, NotReserved and
// TableFull.
pub fn split(
    words: &mut [u64],
    segment: Segment,
    at: VirtAddr,
) -> Result<(Segment, Segment), Refusal>
    ensures { left result words.new ≡ split_lent words.old segment at }
{
    split_point(&words[..], segment, at)?;
    let Ok(place) = place_in(&words[..], segment) else {
        return Err(Refusal::NotReserved);
    };
    if 64 <= words[2] {
        return Err(Refusal::TableFull);
    }
    let start = segment.start;
    let below = at.0 - start.0;
    let low = Segment { start, len: below };
    let high = Segment {
        start: at,
        len: segment.len - below,
    };
    put_row(words, place, low);
    insert(words, high);
    Ok((low, high))
}

// The table's rule, then the segment's form.
fn checked(words: &[u64], segment: Segment) -> Result<(), Refusal>
    ensures { result ≡ checked_lent words.now segment }
{
    if !is_sound(words) {
        return Err(Refusal::BadTable);
    }
    segment.form()
}

// The table's rule, then the forms, then whether `at` is a page strictly inside the segment.
fn split_point(words: &[u64], segment: Segment, at: VirtAddr) -> Result<(), Refusal>
    ensures { result ≡ point_lent words.now segment at }
{
    if !is_sound(words) {
        return Err(Refusal::BadTable);
    }
    if !at.is_canonical() {
        return Err(Refusal::BadAddress);
    }
    segment.form()?;
    if inside(segment, at) {
        Ok(())
    } else {
        Err(Refusal::InvalidSplitPoint)
    }
}

// Whether a page starts at `at`, strictly inside the segment.
fn inside(segment: Segment, at: VirtAddr) -> bool
    ensures { result ≡ insideb segment at }
{
    if !at.is_aligned() {
        return false;
    }
    if at.0 <= segment.start.0 {
        return false;
    }
    at.0 - segment.start.0 < segment.len
}

// Whether a segment held has a byte of this one.
fn overlaps_any(words: &[u64], segment: Segment) -> bool
    requires { checked_lent words.now segment ≡ Ok tt }
    ensures { result ≡ overlapsb (held (manager_of words.now)) segment }
{
    let len = segment.len;
    if len == 0 {
        return false;
    }
    let count = words[2] as usize;
    find_overlapping_at(
        &words[3..],
        count,
        segment.start.0,
        segment.start.0 + (len - 1),
    )
    .is_some()
}
