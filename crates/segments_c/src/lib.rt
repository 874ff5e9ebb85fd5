// The segment manager for C and Rust programs, on words that the caller lends (include/segments.h): arena start, arena size,
// count, and 64 rows of start and length. Each call answers 0, or the number of a refusal (RULES E), and sets all four words of
// `out`. A refusal leaves the manager's words as they were; so does a slice of another length, whose answer is 1, BadTable.
#![tactic(auto)]

ghost use Rattle.std.specs.Prelude.{◌≡◌, []};
ghost use Rattle.segments_c.specs.LentManager.{lent, new_on, mark_on, reserve_on, release_on, split_on};

mod words;

use address::VirtAddr;
use segments::Segment;
use segments_lent::manager::{mark_as_reserved, new, release, reserve_bytes, split};
use words::put_out;

// A manager with no segments over an arena.
#[unsafe(no_mangle)]
pub extern "C" fn manager_new(words: &mut [u64], start: u64, size: u64) -> u64
    ensures { lent result words.new [] ≡ new_on words.old start size }
{
    match new(words, VirtAddr(start), size) {
        Err(why) => why.number(),
        Ok(()) => 0,
    }
}

// Reserves the lowest free start: out[0] is the start, out[1] how often the search started over.
#[unsafe(no_mangle)]
pub extern "C" fn manager_reserve(words: &mut [u64], len: u64, out: &mut [u64]) -> u64
    ensures { lent result words.new out.new ≡ reserve_on words.old len out.old }
{
    if words.len() != 131 {
        return 1;
    }
    if out.len() != 4 {
        return 1;
    }
    match reserve_bytes(words, len) {
        Err(why) => {
            put_out(out, 0, 0, 0, 0);
            why.number()
        }
        Ok((segment, restarts)) => {
            put_out(out, segment.start.0, restarts, 0, 0);
            0
        }
    }
}

// Reserves a given segment, in the arena or not.
#[unsafe(no_mangle)]
pub extern "C" fn manager_mark(words: &mut [u64], start: u64, len: u64) -> u64
    ensures { lent result words.new [] ≡ mark_on words.old start len }
{
    let segment = Segment {
        start: VirtAddr(start),
        len,
    };
    match mark_as_reserved(words, segment) {
        Err(why) => why.number(),
        Ok(()) => 0,
    }
}

// Gives a segment up: out[0] is 1 if it was held exactly so, else 0.
#[unsafe(no_mangle)]
pub extern "C" fn manager_release(words: &mut [u64], start: u64, len: u64, out: &mut [u64]) -> u64
    ensures { lent result words.new out.new ≡ release_on words.old start len out.old }
{
    if words.len() != 131 {
        return 1;
    }
    if out.len() != 4 {
        return 1;
    }
    let segment = Segment {
        start: VirtAddr(start),
        len,
    };
    match release(words, segment) {
        Err(why) => {
            put_out(out, 0, 0, 0, 0);
            why.number()
        }
        Ok(held) => {
            put_out(out, held as u64, 0, 0, 0);
            0
        }
    }
}

// Replaces a held segment by the two that meet at `at`: out is start and length of the lower, then of the upper.
#[unsafe(no_mangle)]
pub extern "C" fn manager_split(
    words: &mut [u64],
    start: u64,
    len: u64,
    at: u64,
    out: &mut [u64],
) -> u64
    ensures { lent result words.new out.new ≡ split_on words.old start len at out.old }
{
    if words.len() != 131 {
        return 1;
    }
    if out.len() != 4 {
        return 1;
    }
    let segment = Segment {
        start: VirtAddr(start),
        len,
    };
    match split(words, segment, VirtAddr(at)) {
        Err(why) => {
            put_out(out, 0, 0, 0, 0);
            why.number()
        }
        Ok((low, high)) => {
            put_out(out, low.start.0, low.len, high.start.0, high.len);
            0
        }
    }
}
