// The rows of new regions: as they are asked for, and as they are stored.
ghost use Rattle.std.specs.Prelude.{◌≡◌};
ghost use Rattle.model.specs.Create.{one, is_copy, wanted_private, wanted_file, wanted_shared, placed_at};
ghost use Rattle.backing.specs.BackingSteps.{found_frame};
ghost use Rattle.create.specs.Made.{with_range};

use address::{PageTableFlags, PhysFrame, VirtAddr};
use model::{COPY_ON_WRITE, FILE_BACKED, ForkPolicy, PRIVATE, Region, SHARED};

// A mark in a row.
fn mark(b: bool) -> u64
    ensures { result ≡ one b }
{
    u64::from(b)
}

// A Private region as it is asked for.
pub fn private_row(size: u64, flags: u64, fork: ForkPolicy, thread: bool) -> Region
    ensures { result ≡ wanted_private size flags (is_copy fork) thread }
{
    let fork = mark(fork.is_copy());
    let per_thread = mark(thread);
    Region {
        kind: PRIVATE,
        start: VirtAddr(0),
        size,
        flags: PageTableFlags(flags),
        fork,
        per_thread,
        pins: 0,
        file: 0,
        offset: 0,
        length: 0,
        ranged: 0,
        range: PhysFrame(0),
    }
}

// A FileBacked region as it is asked for.
pub fn file_row(
    size: u64,
    flags: u64,
    fork: ForkPolicy,
    thread: bool,
    file: u64,
    offset: u64,
    len: u64,
) -> Region
    ensures { result ≡ wanted_file size flags (is_copy fork) thread file offset len }
{
    let fork = mark(fork.is_copy());
    let per_thread = mark(thread);
    Region {
        kind: FILE_BACKED,
        start: VirtAddr(0),
        size,
        flags: PageTableFlags(flags),
        fork,
        per_thread,
        pins: 0,
        file,
        offset,
        length: len,
        ranged: 0,
        range: PhysFrame(0),
    }
}

// A Shared region as it is asked for.
pub fn shared_row(size: u64) -> Region
    ensures { result ≡ wanted_shared size }
{
    Region {
        kind: SHARED,
        start: VirtAddr(0),
        size,
        flags: PageTableFlags(0),
        fork: COPY_ON_WRITE,
        per_thread: 0,
        pins: 0,
        file: 0,
        offset: 0,
        length: 0,
        ranged: 0,
        range: PhysFrame(0),
    }
}

// A region with its start and a range.
fn with_range(region: Region, start: VirtAddr, ranged: u64, range: PhysFrame) -> Region
    ensures { result ≡ with_range region start.0 ranged range.0 }
{
    Region {
        start,
        pins: 0,
        ranged,
        range,
        ..region
    }
}

// A region as it is stored: with its start, and its range if it has one.
pub(crate) fn placed_at(region: Region, start: VirtAddr, run: Option<PhysFrame>) -> Region
    ensures { result ≡ placed_at region start.0 (found_frame run) }
{
    match run {
        Some(frame) => with_range(region, start, 1, frame),
        None => with_range(region, start, 0, PhysFrame(0)),
    }
}
