// The four page table flags (RULES F1), and no others.
ghost use Rattle.std.specs.Prelude.{◌≡◌};
ghost use Rattle.address.specs.Bits.{has};
ghost use Rattle.address.specs.Flags.{Contains, Without, checked_flags, read_only, present, writable, user_accessible, no_execute};
ghost use Rattle.laws.specs.Tells.{Tells};

// Flag bits of a page table entry.
#[derive(Clone, Copy, Debug, PartialEq, Eq, PartialOrd, Ord)]
pub struct PageTableFlags(pub u64);

impl PageTableFlags {
    pub const PRESENT: PageTableFlags = PageTableFlags(1);

    pub const WRITABLE: PageTableFlags = PageTableFlags(2);

    pub const USER_ACCESSIBLE: PageTableFlags = PageTableFlags(4);

    pub const NO_EXECUTE: PageTableFlags = PageTableFlags(0x8000_0000_0000_0000);

    // The flags of a number, or the refusal: PRESENT missing, or a bit outside the four.
    pub fn from_bits(bits: u64) -> Option<PageTableFlags>
        ensures { result ≡ checked_flags bits }
    {
        let flags = PageTableFlags(bits);
        let all = PageTableFlags(0x8000_0000_0000_0007);
        if !flags.contains(PageTableFlags::PRESENT) {
            return None;
        }
        if all.contains(flags) {
            Some(flags)
        } else {
            None
        }
    }

    // Whether every bit of `other` is set here.
    pub fn contains(self, other: PageTableFlags) -> bool
        ensures { Tells result (Contains self.0 other.0) }
    {
        self.0 & other.0 == other.0
    }

    // These flags, the bits of `other` off.
    pub fn without(self, other: PageTableFlags) -> PageTableFlags
        ensures { Without self.0 other.0 result.0 }
    {
        PageTableFlags(self.0 ^ (self.0 & other.0))
    }

    // Whether the page may be used at all.
    pub fn is_present(self) -> bool
        ensures { result ≡ has self.0 present }
    {
        self.contains(PageTableFlags::PRESENT)
    }

    // Whether stores are allowed.
    pub fn is_writable(self) -> bool
        ensures { result ≡ has self.0 writable }
    {
        self.contains(PageTableFlags::WRITABLE)
    }

    // Whether a process may use the page, and not the kernel alone.
    pub fn is_user_accessible(self) -> bool
        ensures { result ≡ has self.0 user_accessible }
    {
        self.contains(PageTableFlags::USER_ACCESSIBLE)
    }

    // Whether instructions may not be fetched.
    pub fn is_no_execute(self) -> bool
        ensures { result ≡ has self.0 no_execute }
    {
        self.contains(PageTableFlags::NO_EXECUTE)
    }

    // These flags, WRITABLE off.
    pub fn read_only(self) -> PageTableFlags
        ensures { result.0 ≡ read_only self.0 }
    {
        self.without(PageTableFlags::WRITABLE)
    }
}
