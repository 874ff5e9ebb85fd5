// The refusals of creation that need no search, in the order of their numbers.
ghost use Rattle.std.specs.Prelude.{◌≡◌, ◌^◌, ◌≤◌, length};
ghost use Rattle.model.specs.Layout.{word_count, machine};
ghost use Rattle.model.specs.Answers.{first_of};
ghost use Rattle.model.specs.Create.{bad_start, bad_place, bad_size};
ghost use Rattle.create.specs.RequestRefused.{bad_range, bad_flags, file_missing, request_refusals};

use address::{PageTableFlags, USER_END};
use answers::Refusal;
use lookup::search::is_open;
use model::{FILE_BACKED, Place, Region, SHARED};
use rows::files::file_count;
use rows::sizes::segment_len;

// Whether a given start is no user address.
fn is_bad_start(place: Place) -> bool
    ensures { result ≡ bad_start place }
{
    let Place::At(start) = place else {
        return false;
    };
    !start.is_user()
}

// Whether a given start is no page's, or the segment does not end among the user addresses.
fn is_bad_place(place: Place, size: u64) -> bool
    requires { size ≤ 2 ^ 47 }
    ensures { result ≡ bad_place place size }
{
    let Place::At(start) = place else {
        return false;
    };
    if !start.is_aligned() {
        return true;
    }
    let len = segment_len(size);
    if USER_END < start.0 {
        return true;
    }
    USER_END - start.0 < len
}

// Whether a size, or a file's offset or length, passes its limit.
fn is_bad_size(region: Region) -> bool
    ensures { result ≡ bad_size region }
{
    if region.size == 0 {
        return true;
    }
    if USER_END < region.size {
        return true;
    }
    if USER_END < region.offset {
        return true;
    }
    region.size < region.length
}

// Whether the range that is asked for cannot be.
fn is_bad_range(place: Place, region: Region) -> bool
    ensures { result ≡ bad_range place region }
{
    if is_bad_size(region) {
        return true;
    }
    is_bad_place(place, region.size)
}

// Whether the flags are bad; those of a Shared region are not asked for.
fn has_bad_flags(region: Region) -> bool
    ensures { result ≡ bad_flags region }
{
    if region.kind == SHARED {
        return false;
    }
    PageTableFlags::from_bits(region.flags.0).is_none()
}

// Whether a FileBacked region names no file.
fn names_no_file(words: &[u64], region: Region) -> bool
    requires { length words.now ≡ word_count }
    ensures { result ≡ file_missing (machine words.now) region }
{
    if region.kind != FILE_BACKED {
        return false;
    }
    file_count(words) <= region.file
}

// What is wrong with what was asked for, before anything is searched.
pub(crate) fn request_refusal(
    words: &[u64],
    process: u64,
    place: Place,
    region: Region,
) -> Result<(), Refusal>
    requires { length words.now ≡ word_count }
    ensures { result ≡ first_of (request_refusals (machine words.now) process place region) }
{
    if !is_open(words, process) {
        return Err(Refusal::NoProcess);
    }
    if is_bad_start(place) {
        return Err(Refusal::BadAddress);
    }
    if is_bad_range(place, region) {
        return Err(Refusal::BadRange);
    }
    if has_bad_flags(region) {
        return Err(Refusal::BadFlags);
    }
    if names_no_file(words, region) {
        return Err(Refusal::NoFile);
    }
    Ok(())
}
