// The region slots' rows: a free one is all zeros, any other keeps creation's limits.
ghost use Rattle.std.specs.Prelude.{◌≡◌, ◌<◌, length};
ghost use Rattle.address.specs.Flags.{good_flags};
ghost use Rattle.model.specs.Layout.{word_count, machine};
ghost use Rattle.laws.specs.Tests.{all_rows};
ghost use Rattle.model.specs.SoundTest.{free_region, limitsb, region_fits};
ghost use Rattle.sound_rows.specs.SlotRow.{place_fits, own_rights, shared_rights, rights_fit, file_part, no_file_part, content_fits, range_fits};

use address::{PAGE_SIZE, PageTableFlags, USER_END};
use lookup::backed::backing_from;
use model::{COPY_ON_WRITE, FILE_BACKED, FREE, MOST_PINS, REGIONS, Region, SHARED};
use rows::files::file_count;
use rows::sizes::pages_for;
use rows::slots::region_at;

// Whether every slot's row fits.
pub fn regions_fit(words: &[u64]) -> bool
    requires { length words.now ≡ word_count }
    ensures { result ≡ all_rows (λ i x. region_fits (machine words.now) x) 0 (machine words.now).regions }
{
    for i in 0..REGIONS {
        let row = region_at(words, i);
        if !region_fits(words, row) {
            return false;
        }
    }
    true
}

// Whether a slot is all zeros, or its region keeps the limits.
fn region_fits(words: &[u64], region: Region) -> bool
    requires { length words.now ≡ word_count }
    ensures { result ≡ region_fits (machine words.now) region }
{
    if region.kind == FREE {
        return is_free(region);
    }
    limits_fit(words, region)
}

// Whether a slot's words are all 0.
fn is_free(region: Region) -> bool
    ensures { result ≡ free_region region }
{
    region.kind
        | region.start.0
        | region.size
        | region.flags.0
        | region.fork
        | region.per_thread
        | region.pins
        | region.file
        | region.offset
        | region.length
        | region.ranged
        | region.range.0
        == 0
}

// Whether a region keeps creation's limits.
fn limits_fit(words: &[u64], region: Region) -> bool
    requires { length words.now ≡ word_count }
    ensures { result ≡ limitsb (machine words.now) region }
{
    if !place_fits(region) {
        return false;
    }
    if !rights_fit(region) {
        return false;
    }
    if !content_fits(words, region) {
        return false;
    }
    range_fits(words, region)
}

// Whether kind and pins are in their limits, and the segment among user addresses. From a page's start on, a size
// and the size rounded up to pages end at or before 2^47 alike.
fn place_fits(region: Region) -> bool
    ensures { result ≡ place_fits region }
{
    if 3 < region.kind {
        return false;
    }
    if region.start.0 % PAGE_SIZE != 0 {
        return false;
    }
    if region.size < 1 {
        return false;
    }
    if USER_END < region.start.0 {
        return false;
    }
    if USER_END - region.start.0 < region.size {
        return false;
    }
    region.pins <= MOST_PINS
}

// Whether flags, fork policy and per-thread mark fit the kind.
fn rights_fit(region: Region) -> bool
    ensures { result ≡ rights_fit region }
{
    if region.kind == SHARED {
        return shared_rights(region);
    }
    own_rights(region)
}

// Whether a Shared region has none of its own, and a range.
fn shared_rights(region: Region) -> bool
    ensures { result ≡ shared_rights region }
{
    if region.flags.0 != 0 {
        return false;
    }
    if region.fork != COPY_ON_WRITE {
        return false;
    }
    if region.per_thread != 0 {
        return false;
    }
    region.ranged == 1
}

// Whether any other region's are good.
fn own_rights(region: Region) -> bool
    ensures { result ≡ own_rights region }
{
    if !good_flags(region.flags) {
        return false;
    }
    if 1 < region.fork {
        return false;
    }
    region.per_thread <= 1
}

// Whether flags are ones that creation takes.
fn good_flags(flags: PageTableFlags) -> bool
    ensures { result ≡ good_flags flags.0 }
{
    PageTableFlags::from_bits(flags.0).is_some()
}

// Whether a file-backed region's file part fits, and any other has none.
fn content_fits(words: &[u64], region: Region) -> bool
    requires { length words.now ≡ word_count }
    ensures { result ≡ content_fits (machine words.now) region }
{
    if region.kind == FILE_BACKED {
        let files = file_count(words);
        return file_part(files, region);
    }
    no_file_part(region)
}

// Whether the part is one of a known file, up to 2^48; offset plus size may be too large a sum.
fn file_part(files: u64, region: Region) -> bool
    ensures { result ≡ file_part files region }
{
    if files <= region.file {
        return false;
    }
    if 0x1_0000_0000_0000 < region.offset {
        return false;
    }
    if 0x1_0000_0000_0000 - region.offset < region.size {
        return false;
    }
    if region.size < region.length {
        return false;
    }
    region.ranged == 0
}

// Whether there is no file part.
fn no_file_part(region: Region) -> bool
    ensures { result ≡ no_file_part region }
{
    if region.file != 0 {
        return false;
    }
    if region.offset != 0 {
        return false;
    }
    region.length == 0
}

// Whether the range, if any, covers the whole region.
fn range_fits(words: &[u64], region: Region) -> bool
    requires { length words.now ≡ word_count }
    ensures { result ≡ range_fits (machine words.now) region }
{
    if region.ranged == 1 {
        let backing = backing_from(words, region.range);
        let pages = pages_for(region.size);
        return backing.len == pages;
    }
    if region.ranged != 0 {
        return false;
    }
    region.range.0 == 0
}
