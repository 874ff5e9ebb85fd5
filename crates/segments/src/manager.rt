// The calls of a lone manager: each takes any manager and any arguments, tests the table first, and answers by the rules (RULES S).
ghost use Rattle.std.specs.Prelude.{◌≡◌, true, Ok};
ghost use Rattle.segments.specs.Table.{held, soundb};
ghost use Rattle.segments.specs.Calls.{new_call, reserve_call, mark_call, release_call, split_call, list_call, checked_by, split_point, insideb, lowest, overlapsb};

use crate::table::VirtualMemoryManager;
use address::VirtAddr;
use answers::Refusal;
use segment::Segment;
use segment_search::{find_overlapping_at, lowest_start};

// What a call answers, and the manager that it leaves: that goes with a refusal too, so the calls that answer it have no `?`.
#[derive(Clone, Copy)]
pub struct Answered<T> {
    pub answer: Result<T, Refusal>,
    pub manager: VirtualMemoryManager,
}

// How many segments there are, in list order, and zeros after them.
#[derive(Clone, Copy)]
pub struct ListAnswer {
    pub answer: Result<usize, Refusal>,
    pub segments: [Segment; 64],
}

impl VirtualMemoryManager {
    // A manager with no segments over an arena. Refuses BadAddress and BadRange, and answers the manager of no arena then.
    pub fn new(mem_start: VirtAddr, mem_size: u64) -> Answered<()>
        ensures { result ≡ new_call mem_start mem_size }
    {
        let form = Segment::new(mem_start, mem_size).form();
        if form.is_err() {
            return Answered {
                answer: form,
                manager: VirtualMemoryManager::over(VirtAddr(0), 0),
            };
        }
        Answered {
            answer: form,
            manager: VirtualMemoryManager::over(mem_start, mem_size),
        }
    }

    // Reserves the lowest free start of the arena. Refuses BadTable, NoSpace and TableFull, and leaves the manager as it was then.
    pub fn reserve_bytes(self, len: u64) -> Answered<(Segment, u64)>
        ensures { result ≡ reserve_call self len }
    {
        if !self.is_sound() {
            return Answered {
                answer: Err(Refusal::BadTable),
                manager: self,
            };
        }
        let Some((start, restarts)) = self.lowest_free(len) else {
            return Answered {
                answer: Err(Refusal::NoSpace),
                manager: self,
            };
        };
        if 64 <= self.count {
            return Answered {
                answer: Err(Refusal::TableFull),
                manager: self,
            };
        }
        let segment = Segment {
            start: VirtAddr(start),
            len,
        };
        Answered {
            answer: Ok((segment, restarts)),
            manager: self.insert(segment),
        }
    }

    // Reserves a given segment, in the arena or not. Refuses BadTable, BadAddress, BadRange, SegmentReserved and TableFull, and leaves
    // the manager as it was then.
    pub fn mark_as_reserved(self, segment: Segment) -> Answered<()>
        ensures { result ≡ mark_call self segment }
    {
        if let Err(why) = self.checked(segment) {
            return Answered {
                answer: Err(why),
                manager: self,
            };
        }
        if self.overlaps_any(segment) {
            return Answered {
                answer: Err(Refusal::SegmentReserved),
                manager: self,
            };
        }
        if self.place(segment).is_some() {
            return Answered {
                answer: Ok(()),
                manager: self,
            };
        }
        if 64 <= self.count {
            return Answered {
                answer: Err(Refusal::TableFull),
                manager: self,
            };
        }
        Answered {
            answer: Ok(()),
            manager: self.insert(segment),
        }
    }

    // Gives a segment up, if it is held exactly so. Refuses BadTable, BadAddress and BadRange, and leaves the manager as it was then.
    pub fn release(self, segment: Segment) -> Answered<bool>
        ensures { result ≡ release_call self segment }
    {
        if let Err(why) = self.checked(segment) {
            return Answered {
                answer: Err(why),
                manager: self,
            };
        }
        let Some(at) = self.place(segment) else {
            return Answered {
                answer: Ok(false),
                manager: self,
            };
        };
        Answered {
            answer: Ok(true),
            manager: self.remove_at(at),
        }
    }

    // Replaces a held segment by the two that meet at `at`. Refuses BadTable, BadAddress, BadRange, InvalidSplitPoint, NotReserved
    // and TableFull, and leaves the manager as it was then.
    pub fn split(self, segment: Segment, at: VirtAddr) -> Answered<(Segment, Segment)>
        ensures { result ≡ split_call self segment at }
    {
        if let Err(why) = self.split_point(segment, at) {
            return Answered {
                answer: Err(why),
                manager: self,
            };
        }
        let Some(place) = self.place(segment) else {
            return Answered {
                answer: Err(Refusal::NotReserved),
                manager: self,
            };
        };
        if 64 <= self.count {
            return Answered {
                answer: Err(Refusal::TableFull),
                manager: self,
            };
        }
        let start = segment.start;
        let below = at.0 - start.0;
        let low = Segment { start, len: below };
        let high = Segment {
            start: at,
            len: segment.len - below,
        };
        Answered {
            answer: Ok((low, high)),
            manager: self.remove_at(place).insert(low).insert(high),
        }
    }

    // The segments in list order. Refuses BadTable, and lists nothing then.
    pub fn segments(self) -> ListAnswer
        ensures { result ≡ list_call self }
    {
        if !self.is_sound() {
            let none = Segment {
                start: VirtAddr(0),
                len: 0,
            };
            return ListAnswer {
                answer: Err(Refusal::BadTable),
                segments: [none; 64],
            };
        }
        ListAnswer {
            answer: Ok(self.count),
            segments: self.rows(),
        }
    }

    // The table's rule, then the segment's form.
    fn checked(self, segment: Segment) -> Result<(), Refusal>
        ensures { result ≡ checked_by self segment }
    {
        if !self.is_sound() {
            return Err(Refusal::BadTable);
        }
        segment.form()
    }

    // The table's rule, then the forms, then whether `at` is a page strictly inside the segment.
    fn split_point(self, segment: Segment, at: VirtAddr) -> Result<(), Refusal>
        ensures { result ≡ split_point self segment at }
    {
        if !self.is_sound() {
            return Err(Refusal::BadTable);
        }
        if !at.is_canonical() {
            return Err(Refusal::BadAddress);
        }
        segment.form()?;
        if inside(segment, at) {
            Ok(())
        } else {
            Err(Refusal::InvalidSplitPoint)
        }
    }

    // The lowest free start for `len` bytes.
    fn lowest_free(self, len: u64) -> Option<(u64, u64)>
        requires { soundb self ≡ true }
        ensures { result ≡ lowest self len }
    {
        if len == 0 {
            return None;
        }
        if self.mem_size < len {
            return None;
        }
        let last = self.mem_start.0 + (self.mem_size - 1);
        let words = self.words();
        lowest_start(&words[..], self.count, last, len, self.mem_start.0, 0)
    }

    // Whether a segment held has a byte of this one.
    fn overlaps_any(self, segment: Segment) -> bool
        requires { checked_by self segment ≡ Ok tt }
        ensures { result ≡ overlapsb (held self) segment }
    {
        let len = segment.len;
        if len == 0 {
            return false;
        }
        let words = self.words();
        find_overlapping_at(
            &words[..],
            self.count,
            segment.start.0,
            segment.start.0 + (len - 1),
        )
        .is_some()
    }
}

// Whether a page starts at `at`, strictly inside the segment.
fn inside(segment: Segment, at: VirtAddr) -> bool
    ensures { result ≡ insideb segment at }
{
    if !at.is_aligned() {
        return false;
    }
    if at.0 <= segment.start.0 {
        return false;
    }
    at.0 - segment.start.0 < segment.len
}
