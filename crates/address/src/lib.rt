// Addresses, pages and frames, kept apart by type and converted by named functions alone, under the names of the x86_64 crate.
#![tactic(auto)]

ghost use Rattle.std.specs.Prelude.{◌≡◌, ◌+◌, ◌-◌, ◌*◌, ◌/◌, ◌%◌, ◌<◌};
ghost use Rattle.address.specs.Canonical.{Canonical, canonical, user, checked_addr};
ghost use Rattle.address.specs.Pages.{page_of, start_of, page_offset, page_from, aligned};
ghost use Rattle.laws.specs.Tells.{Tells};

mod flags;

pub use flags::PageTableFlags;

// The bytes of a page, and of a frame.
pub const PAGE_SIZE: u64 = 4096;

// The first address past a process's own: 2^47.
pub const USER_END: u64 = 0x8000_0000_0000;

// How many pages 64 bits of address have: 2^52.
pub const PAGE_COUNT: u64 = 0x10_0000_0000_0000;

// A byte address, as a process or the kernel names it.
#[derive(Clone, Copy, Debug, PartialEq, Eq, PartialOrd, Ord)]
pub struct VirtAddr(pub u64);

// The number of a page of 4,096 bytes.
#[derive(Clone, Copy, Debug, PartialEq, Eq, PartialOrd, Ord)]
pub struct Page(pub u64);

// A byte's place among the frames.
#[derive(Clone, Copy, Debug, PartialEq, Eq, PartialOrd, Ord)]
pub struct PhysAddr(pub u64);

// The number of a frame of 4,096 bytes. As PhysAddr beside VirtAddr, a type of its own beside Page and no generic, as in the x86_64
// crate: the two are not to be mixed up, and have different methods.
#[derive(Clone, Copy, Debug, PartialEq, Eq, PartialOrd, Ord)]
pub struct PhysFrame(pub u64);

// A number that is no address: its bits 63 to 47 are not all equal.
#[derive(Clone, Copy, Debug, PartialEq, Eq)]
pub struct VirtAddrNotValid(pub u64);

impl VirtAddr {
    // The address, or the number itself where the Rust's VirtAddr::new would panic.
    pub fn try_new(addr: u64) -> Result<VirtAddr, VirtAddrNotValid>
        ensures { result ≡ checked_addr addr }
    {
        let a = VirtAddr(addr);
        if a.is_canonical() {
            Ok(a)
        } else {
            Err(VirtAddrNotValid(addr))
        }
    }

    // The number itself.
    pub fn as_u64(self) -> u64
        ensures { result ≡ self.0 }
    {
        self.0
    }

    // Whether bits 63 to 47 are all equal.
    pub fn is_canonical(self) -> bool
        ensures intel { Tells result (Canonical self.0) }
        ensures test { result ≡ canonical self.0 }
    {
        self.0 < USER_END || 0xffff_8000_0000_0000 <= self.0
    }

    // Whether it is below 2^47, where a process's own addresses are.
    pub fn is_user(self) -> bool
        ensures { result ≡ user self.0 }
    {
        self.0 < USER_END
    }

    // Whether a page starts here.
    pub fn is_aligned(self) -> bool
        ensures { result ≡ aligned self.0 }
    {
        self.0 % PAGE_SIZE == 0
    }

    // Its place in its page.
    pub fn page_offset(self) -> u64
        ensures { result ≡ page_offset self.0 }
    {
        self.0 % PAGE_SIZE
    }
}

impl Page {
    // The page that holds an address.
    pub fn containing_address(addr: VirtAddr) -> Page
        ensures { result.0 ≡ page_of addr.0 }
    {
        Page(addr.0 / PAGE_SIZE)
    }

    // The address of its first byte; a number past the last page counts from page 0 again.
    pub fn start_address(self) -> VirtAddr
        ensures { result.0 ≡ start_of self.0 }
    {
        VirtAddr(self.0 % PAGE_COUNT * PAGE_SIZE)
    }

    // The first page that starts `len` bytes past an address or later, with no sum that could be too large.
    pub fn starting_from(addr: VirtAddr, len: u64) -> Page
        ensures { result.0 ≡ page_from (addr.0 + len) }
    {
        let rest = addr.0 % PAGE_SIZE + len % PAGE_SIZE;
        Page(addr.0 / PAGE_SIZE + len / PAGE_SIZE + (rest + (PAGE_SIZE - 1)) / PAGE_SIZE)
    }

    // How many pages it lies past another; 0 below that one.
    pub fn pages_past(self, first: Page) -> u64
        ensures { result ≡ self.0 - first.0 }
    {
        if self.0 < first.0 {
            return 0;
        }
        self.0 - first.0
    }
}

impl PhysFrame {
    // The frame that holds a byte.
    pub fn containing_address(addr: PhysAddr) -> PhysFrame
        ensures { result.0 ≡ page_of addr.0 }
    {
        PhysFrame(addr.0 / PAGE_SIZE)
    }

    // The place of its first byte; a number past the last frame counts from frame 0 again.
    pub fn start_address(self) -> PhysAddr
        ensures { result.0 ≡ start_of self.0 }
    {
        PhysAddr(self.0 % PAGE_COUNT * PAGE_SIZE)
    }

    // The place of one of its bytes.
    pub fn address_at(self, offset: u64) -> PhysAddr
        requires { offset < 4096 }
        ensures { result.0 ≡ start_of self.0 + offset }
    {
        PhysAddr(self.0 % PAGE_COUNT * PAGE_SIZE + offset)
    }
}
