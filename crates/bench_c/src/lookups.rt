// Look-ups and a process's page table for C and Rust programs, on a machine's words that the caller lends; the benchmark links them.
// Words of another length, a process past the last and a row past the last are answered as if nothing were there, and left alone.
ghost use Rattle.std.specs.Prelude.{◌≡◌, ◌-◌, ◌^◌, nat_lt};
ghost use Rattle.model.specs.Layout.{machine};
ghost use Rattle.model.specs.Machine.{mapped_of};
ghost use Rattle.model.specs.Lookup.{region_for, covered};
ghost use Rattle.model.specs.Paging.{mapping};
ghost use Rattle.model.specs.Backing.{entry_for};
ghost use Rattle.model.specs.Create.{one};
ghost use Rattle.rows.specs.LentMemory.{SoundWords};
ghost use Rattle.paging.specs.Place.{translate_by};
ghost use Rattle.paging.specs.Mapper.{mapped_pages, map_by, unmap_by};
ghost use Rattle.bench_c.specs.LookupsOn.{process_there, row_there, answer_if, row_or, frame_or, mapped_one, Left};

use address::{Page, PageTableFlags, PhysFrame, VirtAddr};
use lookup::attached::region_for;
use lookup::search::entry_for;
use model::Mapping;
use regions::cover::covers;

// The slot of the attached region at an address, 64 where there is none.
#[unsafe(no_mangle)]
pub extern "C" fn tables_region_for(words: &[u64], process: usize, addr: u64) -> usize
    ensures { result ≡ answer_if (process_there words.now process) (row_or 64 (region_for (machine words.now) process addr)) 64 }
{
    if words.len() != 11844 {
        return 64;
    }
    if process >= 8 {
        return 64;
    }
    let Some(slot) = region_for(words, process, VirtAddr(addr)) else {
        return 64;
    };
    slot
}

// Whether a process's regions cover a range: 1, or 0.
#[unsafe(no_mangle)]
pub extern "C" fn tables_covers(words: &[u64], process: usize, start: u64, end: u64) -> u64
    ensures { SoundWords words.now → result ≡ answer_if (process_there words.now process) (one (covered (machine words.now) process start end)) 0 }
{
    if words.len() != 11844 {
        return 0;
    }
    if process >= 8 {
        return 0;
    }
    if covers(words, process, start, end) {
        return 1;
    }
    0
}

// The page entry of a page of the region in a row, 512 where there is none.
#[unsafe(no_mangle)]
pub extern "C" fn tables_entry_for(words: &[u64], row: u64, page: u64) -> usize
    ensures { result ≡ answer_if (row_there words.now row) (row_or 512 (entry_for (machine words.now) row page)) 512 }
{
    if words.len() != 11844 {
        return 512;
    }
    if row >= 512 {
        return 512;
    }
    let Some(i) = entry_for(words, row, Page(page)) else {
        return 512;
    };
    i
}

// The frame that a page is mapped to, 2^64 - 1 where it is not mapped.
#[unsafe(no_mangle)]
pub extern "C" fn paging_translate(words: &[u64], process: usize, page: u64) -> u64
    ensures { result ≡ answer_if (process_there words.now process) (frame_or (2 ^ 64 - 1) (translate_by (mapped_of (machine words.now) process) page)) (2 ^ 64 - 1) }
{
    if words.len() != 11844 {
        return 0xffff_ffff_ffff_ffff;
    }
    if process >= 8 {
        return 0xffff_ffff_ffff_ffff;
    }
    let Some(row) = paging::search::translate(words, process, Page(page)) else {
        return 0xffff_ffff_ffff_ffff;
    };
    row.frame.0
}

// Maps a page: 1, or 0 where 128 are mapped already.
#[unsafe(no_mangle)]
pub extern "C" fn paging_map(
    words: &mut [u64],
    process: usize,
    page: u64,
    frame: u64,
    flags: u64,
) -> u64
    ensures value { result ≡ answer_if (process_there words.old process) (one (nat_lt (mapped_pages (machine words.old) process) 128)) 0 }
    ensures left { Left (process_there words.old process) words.old words.new (map_by (machine words.old) process (mapping page frame flags)) }
{
    if words.len() != 11844 {
        return 0;
    }
    if process >= 8 {
        return 0;
    }
    let row = Mapping {
        page: Page(page),
        frame: PhysFrame(frame),
        flags: PageTableFlags(flags),
    };
    if paging::mapper::map(words, process, row) {
        return 1;
    }
    0
}

// Unmaps a page: 1, or 0 where it was not mapped.
#[unsafe(no_mangle)]
pub extern "C" fn paging_unmap(words: &mut [u64], process: usize, page: u64) -> u64
    ensures value { result ≡ answer_if (process_there words.old process) (mapped_one (translate_by (mapped_of (machine words.old) process) page)) 0 }
    ensures left { Left (process_there words.old process) words.old words.new (unmap_by (machine words.old) process page) }
{
    if words.len() != 11844 {
        return 0;
    }
    if process >= 8 {
        return 0;
    }
    let Some(_) = paging::mapper::unmap(words, process, Page(page)) else {
        return 0;
    };
    1
}
