// What the calls on lent rows decide, by value: how far they go, and what becomes of one row.
ghost use Rattle.std.specs.Prelude.{◌≡◌};
ghost use Rattle.segment_records.specs.Records.{turns_of, carrying_of, stays_of, carried_on, removable, end_of, rows_of};

use segment::Segment;

// An insertion between two rows: what the last row became, what is carried on, and whether the new segment has its place.
#[derive(Clone, Copy)]
pub struct Insertion {
    pub row: Segment,
    pub carry: Segment,
    pub placed: bool,
}

// How many rows an insertion goes over: none where `len` rows have no room for one more.
pub fn turns(len: usize, count: usize) -> usize
    ensures { result ≡ turns_of len count }
{
    if count < len {
        return count + 1;
    }
    0
}

// An insertion before its first row.
pub fn carrying(s: Segment) -> Insertion
    ensures { result ≡ carrying_of s }
{
    Insertion {
        row: s,
        carry: s,
        placed: false,
    }
}

// Whether row i stays: it comes before the new segment, which has no place yet.
fn stays(c: Insertion, i: usize, count: usize, row: Segment) -> bool
    ensures { result ≡ stays_of c i count row }
{
    if c.placed {
        return false;
    }
    if i == count {
        return false;
    }
    let carry = c.carry;
    row.comes_before(carry)
}

// An insertion after row i: the row stays, or what is carried goes there and the row is carried on.
pub fn carried(c: Insertion, i: usize, count: usize, row: Segment) -> Insertion
    ensures { result ≡ carried_on c i count row }
{
    let carry = c.carry;
    if stays(c, i, count, row) {
        return Insertion {
            row: row,
            carry: carry,
            placed: false,
        };
    }
    Insertion {
        row: carry,
        carry: row,
        placed: true,
    }
}

// Whether `at` is one of the first `count` rows, and these are among `len`.
pub fn removes(len: usize, count: usize, at: usize) -> bool
    ensures { result ≡ removable len count at }
{
    if at < count {
        return count <= len;
    }
    false
}

// The row at which a removal ends; it begins at `at`.
pub fn end(len: usize, count: usize, at: usize) -> usize
    ensures { result ≡ end_of len count at }
{
    if removes(len, count, at) {
        return count - 1;
    }
    at
}

// How many rows are looked at.
pub fn rows(len: usize, count: usize) -> usize
    ensures { result ≡ rows_of len count }
{
    if count < len {
        return count;
    }
    len
}
