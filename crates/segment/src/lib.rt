// A segment of addresses: where it starts and how long it is.
#![tactic(auto)]

ghost use Rattle.std.specs.Prelude.{◌≡◌};
ghost use Rattle.segment.specs.Form.{form_of, sameb, beforeb, overb};

use address::VirtAddr;
use answers::Refusal;

// `len` bytes from `start` on.
#[derive(Clone, Copy, Debug, PartialEq, Eq, PartialOrd, Ord)]
pub struct Segment {
    pub start: VirtAddr,
    pub len: u64,
}

impl Segment {
    pub fn new(start: VirtAddr, len: u64) -> Segment
        ensures { result ≡ record { start = start; len = len } }
    {
        Segment { start, len }
    }

    // The test of form: BadAddress if it starts at no canonical address, BadRange if its bytes leave that canonical half.
    pub fn form(self) -> Result<(), Refusal>
        ensures { result ≡ form_of self }
    {
        let start = self.start;
        let len = self.len;
        if !start.is_canonical() {
            return Err(Refusal::BadAddress);
        }
        if len == 0 {
            return Ok(());
        }
        if start.0 < 0x8000_0000_0000 {
            if len <= 0x8000_0000_0000 - start.0 {
                return Ok(());
            }
            return Err(Refusal::BadRange);
        }
        if len - 1 <= 0xffff_ffff_ffff_ffff - start.0 {
            return Ok(());
        }
        Err(Refusal::BadRange)
    }

    // Whether both are the same segment.
    pub fn is(self, other: Segment) -> bool
        ensures { result ≡ sameb self other }
    {
        self == other
    }

    // Whether it comes before another in a list: by start, then length.
    pub fn comes_before(self, other: Segment) -> bool
        ensures { result ≡ beforeb self other }
    {
        self < other
    }

    // Whether it holds a byte of the addresses from `first` to `last`, both included.
    pub fn overlaps(self, first: u64, last: u64) -> bool
        ensures { result ≡ overb self first last }
    {
        let len = self.len;
        if len == 0 {
            return false;
        }
        if last < self.start.0 {
            return false;
        }
        if first <= self.start.0 {
            return true;
        }
        first - self.start.0 <= len - 1
    }
}
