// The lines of the state as rows, each made of a row's values.
ghost use Rattle.std.specs.Prelude.{◌+◌, ◌≤◌, length};

use model::{Backing, COPY_ON_WRITE, Entry, FILE_BACKED, Mapping, Pool, Process, Region, SHARED};
use text::{Row, put_row};

// Puts a line of the state.
pub fn put_line(out: &mut [u8], at: usize, row: Row) -> usize
    requires { at + 4096 ≤ length out.old }
    ensures { result ≤ at + 4096 }
{
    put_row(
        out,
        at,
        4096,
        row,
        b"frames_#_free_#_next_#\n frames_#_free_#_next_-\n process_#_$_$\n page_#_$_#_#\n mapped_#_$_#_$\n \
        frame_#_#\n end\n region_#_$_$_@_@_$_@_@_pins_#\n region_#_$_$_@_@_$_@_@_pins_#_range_#_#_#\n \
        region_#_$_$_@_@_$_@_@_pins_#_file_#_$_$\n region_#_$_$_@_@_$_@_@_pins_#_file_#_$_$_range_#_#_#\n \
        region_#_$_$_@_@_pins_#\n region_#_$_$_@_@_pins_#_range_#_#_#\n",
        b"cow copy - thread private file shared attached detached",
        b"",
    )
}

// The last line.
pub fn end_row() -> Row {
    Row::new(6, &[])
}

// The line of all frames: how many there are, how many are free, and the lowest free one.
pub fn pool_row(frames: u64, pool: Pool) -> Row {
    Row::new((pool.free == 0) as u64, &[frames, pool.free, pool.next.0])
}

// The line of a process: its arena.
pub fn process_row(process: u64, of: Process) -> Row {
    Row::new(2, &[process, of.start.0, of.size])
}

// The line of a page entry.
pub fn entry_row(process: u64, entry: Entry, holders: u64) -> Row {
    Row::new(
        3,
        &[
            process,
            entry.page.start_address().0,
            entry.frame.0,
            holders,
        ],
    )
}

// The line of a mapped page.
pub fn mapping_row(process: u64, mapping: Mapping) -> Row {
    Row::new(
        4,
        &[
            process,
            mapping.page.start_address().0,
            mapping.frame.0,
            mapping.flags.0,
        ],
    )
}

// The line of a frame in use: the sum over its bytes.
pub fn sum_row(frame: u64, sum: u64) -> Row {
    Row::new(5, &[frame, sum])
}

// The line of a region; `range` is the backing of its range, if it has one.
pub fn region_row(process: u64, region: Region, attached: bool, range: Backing) -> Row {
    let place = 7 + (!attached) as u64;
    let ranged = (region.ranged != 0) as u64;
    match region.kind {
        FILE_BACKED => file_row(9 + ranged, process, region, place, range),
        SHARED => shared_row(11 + ranged, process, region, place, range),
        _ => private_row(7 + ranged, process, region, place, range),
    }
}

// A file's region shows a part of the file.
fn file_row(form: u64, process: u64, region: Region, place: u64, range: Backing) -> Row {
    Row::new(
        form,
        &[
            process,
            region.start.0,
            region.size,
            5,
            place,
            region.flags.0,
            fork_word(region),
            thread_word(region),
            region.pins,
            region.file,
            region.offset,
            region.length,
            region.range.0,
            range.len,
            range.holders,
        ],
    )
}

// A shared region has no flags, no fork policy and no per-thread mark.
fn shared_row(form: u64, process: u64, region: Region, place: u64, range: Backing) -> Row {
    Row::new(
        form,
        &[
            process,
            region.start.0,
            region.size,
            6,
            place,
            region.pins,
            region.range.0,
            range.len,
            range.holders,
        ],
    )
}

fn private_row(form: u64, process: u64, region: Region, place: u64, range: Backing) -> Row {
    Row::new(
        form,
        &[
            process,
            region.start.0,
            region.size,
            4,
            place,
            region.flags.0,
            fork_word(region),
            thread_word(region),
            region.pins,
            region.range.0,
            range.len,
            range.holders,
        ],
    )
}

// The word of a fork policy: `cow` or `copy`.
fn fork_word(region: Region) -> u64 {
    (region.fork != COPY_ON_WRITE) as u64
}

// The word of a per-thread mark: `-` or `thread`.
fn thread_word(region: Region) -> u64 {
    2 + (region.per_thread != 0) as u64
}
