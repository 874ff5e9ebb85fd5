// The rows of the machine's tables, its calls and their answers. What they mean stands in specs/.
#![tactic(auto)]

ghost use Rattle.std.specs.Prelude.{◌≡◌};
ghost use Rattle.model.specs.Create.{is_copy, is_eager};

use address::{Page, PageTableFlags, PhysFrame, VirtAddr};
use answers::Refusal;

// How many there are (RULES N3 to N8): slots and mapped pages of each process, regions of all.
pub const PROCESSES: usize = 8;

pub const SLOTS: usize = 64;

pub const MAPPED_PAGES: usize = 128;

pub const REGIONS: usize = 512;

pub const ENTRIES: usize = 512;

pub const FRAMES: usize = 256;

pub const FILES: usize = 8;

// The bytes of a frame, among the lent ones.
pub const FRAME_BYTES: usize = 4096;

// The most pins of a region (RULES N9).
pub const MOST_PINS: u64 = 65535;

// What a region slot's row says of its kind.
pub const FREE: u64 = 0;

pub const PRIVATE: u64 = 1;

pub const FILE_BACKED: u64 = 2;

pub const SHARED: u64 = 3;

// What it says of its fork policy.
pub const COPY_ON_WRITE: u64 = 0;

pub const COPY_EAGER: u64 = 1;

// One of the 8 processes: whether it is open, its arena, and how many rows of its lists are in use.
#[derive(Clone, Copy)]
pub struct Process {
    pub opened: u64,
    pub start: VirtAddr,
    pub size: u64,
    pub attached: u64,
    pub mapped: u64,
}

// A region slot, by the numbers above; ranged 1 where it has a range, whose backing's first frame is `range`.
#[derive(Clone, Copy)]
pub struct Region {
    pub kind: u64,
    pub start: VirtAddr,
    pub size: u64,
    pub flags: PageTableFlags,
    pub fork: u64,
    pub per_thread: u64,
    pub pins: u64,
    pub file: u64,
    pub offset: u64,
    pub length: u64,
    pub ranged: u64,
    pub range: PhysFrame,
}

// A page table entry: the flat model keeps a process's in page order.
#[derive(Clone, Copy)]
pub struct Mapping {
    pub page: Page,
    pub frame: PhysFrame,
    pub flags: PageTableFlags,
}

// A page entry: the page of a region that has a frame of its own. Owner 0 free, else the region's row plus 1.
#[derive(Clone, Copy)]
pub struct Entry {
    pub owner: u64,
    pub page: Page,
    pub frame: PhysFrame,
}

// The backing whose first frame is the row's number: its length in frames (0: none starts here) and its holders.
#[derive(Clone, Copy)]
pub struct Backing {
    pub len: u64,
    pub holders: u64,
}

// The frame pool: how many frames are free, and the lowest of them (the number of frames where none is).
#[derive(Clone, Copy)]
pub struct Pool {
    pub free: u64,
    pub next: PhysFrame,
}

// A file: whether it can be read (1) or not (0), and where its bytes stand among the lent ones.
#[derive(Clone, Copy)]
pub struct File {
    pub readable: u64,
    pub offset: u64,
    pub len: u64,
}

// Where creation puts a region.
#[derive(Clone, Copy)]
pub enum Place {
    At(VirtAddr),
    Lowest,
}

// What fork does with a region's pages: the Rust's ForkPolicy.
#[derive(Clone, Copy)]
pub enum ForkPolicy {
    CopyOnWrite,
    CopyEager,
}

impl ForkPolicy {
    // Whether pages are copied at fork.
    pub fn is_copy(self) -> bool
        ensures { result ≡ is_copy self }
    {
        match self {
            ForkPolicy::CopyOnWrite => false,
            ForkPolicy::CopyEager => true,
        }
    }
}

// When a Private region gets its frames: page by page, or all of them when it is created.
#[derive(Clone, Copy)]
pub enum Population {
    Lazy,
    Eager,
}

impl Population {
    // Whether it gets them when it is created.
    pub fn is_eager(self) -> bool
        ensures { result ≡ is_eager self }
    {
        match self {
            Population::Lazy => false,
            Population::Eager => true,
        }
    }
}

// What backs a page of a region, with the number of its holders: a page entry (its row) or the range.
#[derive(Clone, Copy)]
pub enum Backed {
    ByEntry {
        row: usize,
        frame: PhysFrame,
        count: u64,
    },
    ByRange {
        frame: PhysFrame,
        count: u64,
    },
    Unbacked,
}

// The ways of a page fault.
#[derive(Clone, Copy)]
pub enum Way {
    Refuse(Refusal),
    Already,
    Restore,
    Map {
        frame: PhysFrame,
        flags: PageTableFlags,
    },
    Copy {
        frame: PhysFrame,
    },
    Fill,
}

// The answer of carve and of the list of regions, as the definitions have it: the first `count` of `starts` are the regions' starts,
// the rest 0. Code answers `Counted` and puts the starts into lent memory.
#[derive(Clone, Copy)]
pub struct Listed {
    pub done: Result<(), Refusal>,
    pub count: u64,
    pub starts: [u64; 64],
}

// A call of the machine. Start is not among them: it is lent the files' rows.
#[derive(Clone, Copy)]
pub enum Call {
    Sound,
    Open {
        start: VirtAddr,
        size: u64,
    },
    Close {
        process: u64,
    },
    CreatePrivate {
        process: u64,
        place: Place,
        population: Population,
        size: u64,
        flags: u64,
        fork: ForkPolicy,
        thread: bool,
    },
    CreateFile {
        process: u64,
        place: Place,
        size: u64,
        flags: u64,
        fork: ForkPolicy,
        thread: bool,
        file: u64,
        offset: u64,
        len: u64,
    },
    CreateShared {
        process: u64,
        place: Place,
        size: u64,
    },
    Remove {
        process: u64,
        addr: VirtAddr,
    },
    Clear {
        process: u64,
    },
    Carve {
        process: u64,
        start: u64,
        end: u64,
    },
    Covers {
        process: u64,
        start: u64,
        end: u64,
    },
    Region {
        process: u64,
        addr: VirtAddr,
    },
    Regions {
        process: u64,
    },
    Fault {
        process: u64,
        addr: VirtAddr,
        write: bool,
    },
    Populate {
        process: u64,
        addr: VirtAddr,
        len: u64,
        write: bool,
    },
    Eager {
        process: u64,
    },
    CloneRegion {
        process: u64,
        addr: VirtAddr,
        target: u64,
    },
    Clone {
        process: u64,
        target: u64,
    },
    Protect {
        process: u64,
        addr: VirtAddr,
        flags: u64,
    },
    Pin {
        process: u64,
        addr: VirtAddr,
    },
    Unpin {
        process: u64,
        addr: VirtAddr,
    },
    Load {
        process: u64,
        addr: VirtAddr,
    },
    Store {
        process: u64,
        addr: VirtAddr,
        byte: u8,
    },
}

// The answer of carve and of the list of regions where memory for 64 starts is lent: how many stand there. Zeros stand behind them, and
// alone where the call is refused.
#[derive(Clone, Copy)]
pub struct Counted {
    pub done: Result<(), Refusal>,
    pub count: u64,
}

// The answer of any call.
#[derive(Clone, Copy)]
pub enum Answer {
    Done(Result<(), Refusal>),
    Opened(Result<u64, Refusal>),
    Placed(Result<VirtAddr, Refusal>),
    Covering(Result<bool, Refusal>),
    Loaded(Result<u8, Refusal>),
    Counted(Counted),
}
