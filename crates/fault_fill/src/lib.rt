// What a new page of a region holds: zeros, or the bytes of its file.
#![tactic(auto)]

ghost use Rattle.std.specs.Prelude.{◌≡◌, ◌+◌, ◌*◌, ◌^◌, ◌<◌, ◌≤◌, length, get_or};
ghost use Rattle.model.specs.Layout.{word_count, machine};
ghost use Rattle.model.specs.Machine.{no_file};
ghost use Rattle.model.specs.Backing.{put_frame};
ghost use Rattle.model.specs.Fault.{from_file, read_fails, fill_of};
ghost use Rattle.rows.specs.LentMemory.{state_of};
ghost use Rattle.fault_fill.specs.Fill.{past_start, file_bytes, FileReads};

use address::{PAGE_SIZE, Page, PhysFrame};
use frames::{fill, zero};
use model::{FILE_BACKED, FILES, File, Region};
use rows::files::file_at;

// How many bytes a page starts past a region's first; 0 below it.
pub fn past_start(region: Region, page: Page) -> u64
    requires { page.0 < 2 ^ 52 }
    ensures { result ≡ past_start region page.0 }
{
    let start = page.start_address();
    start.0.saturating_sub(region.start.0)
}

// How many bytes of a page come from the region's file.
pub fn from_file(region: Region, page: Page) -> u64
    requires { page.0 < 2 ^ 52 }
    ensures { result ≡ from_file region page.0 }
{
    let rest = region.length.saturating_sub(past_start(region, page));
    rest.min(PAGE_SIZE)
}

// A region's file; past the last row there is none.
pub fn file_of(words: &[u64], region: Region) -> File
    requires { length words.now ≡ word_count }
    ensures { result ≡ get_or (machine words.now).files region.file no_file }
{
    if region.file < FILES as u64 {
        return file_at(words, region.file as usize);
    }
    File {
        readable: 0,
        offset: 0,
        len: 0,
    }
}

// Whether a new page wants bytes of a file that cannot be read.
pub fn read_fails(words: &[u64], region: Region, page: Page) -> bool
    requires words_len { length words.now ≡ word_count }
    requires page_bound { page.0 < 2 ^ 52 }
    ensures { result ≡ read_fails (machine words.now) region page.0 }
{
    if region.kind != FILE_BACKED {
        return false;
    }
    if from_file(region, page) == 0 {
        return false;
    }
    let file = file_of(words, region);
    file.readable == 0
}

// Of the bytes of a page that come from the file, those that the file has, from place `at` of it on.
fn in_file(file: File, at: u64, wanted: u64) -> u64
    ensures { result ≡ file_bytes file at wanted }
{
    let rest = file.len.saturating_sub(at);
    wanted.min(rest)
}

// Fills a frame with what a new page of a region holds.
pub fn fill_page(
    words: &[u64],
    frames: &mut [u8],
    files: &[u8],
    region: Region,
    page: Page,
    new: PhysFrame,
)
    requires words_len { length words.now ≡ word_count }
    requires in_bounds { new.0 * 4096 + 4096 ≤ length frames.old }
    requires page_bound { page.0 < 2 ^ 52 }
    requires file_reads { FileReads (machine words.now) (length files.now) region page.0 }
    ensures { frames.new ≡ put_frame frames.old new.0 (fill_of (state_of words.now frames.old files.now) region page.0) }
{
    if region.kind != FILE_BACKED {
        zero(frames, new);
        return;
    }
    let file = file_of(words, region);
    let at = region.offset + past_start(region, page);
    let count = in_file(file, at, from_file(region, page));
    if count == 0 {
        zero(frames, new);
        return;
    }
    fill(
        frames,
        new,
        files,
        (file.offset + at) as usize,
        count as usize,
    );
}
