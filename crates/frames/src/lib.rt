// The bytes of frames, in place: a frame of 4,096 bytes zeroed, copied, or filled from a file; one byte. No other byte changes.
#![tactic(auto)]

pub mod raw;

ghost use Rattle.std.specs.Prelude.{◌≡◌, ◌+◌, ◌-◌, ◌*◌, ◌^◌, ◌≤◌, ◌<◌, length, get_or, set, take, drop, replicate};
ghost use Rattle.laws.specs.Lists.{pad};
ghost use Rattle.model.specs.Backing.{frame_bytes, put_frame, zero_frames};

use address::{PhysAddr, PhysFrame};
use model::FRAME_BYTES;
use raw::{copy_within, put_bytes, put_zeros};

// The place of a frame's first byte.
fn first_byte(f: PhysFrame) -> usize
    requires { f.0 < 2 ^ 52 }
    ensures { result ≡ f.0 * 4096 }
{
    f.start_address().0 as usize
}

// The byte at an address.
pub fn byte_at(frames: &[u8], addr: PhysAddr) -> u8
    requires { addr.0 < length frames.now }
    ensures { result ≡ get_or frames.now addr.0 0 }
{
    frames[addr.0 as usize]
}

// The byte at an address becomes b.
pub fn put_byte(frames: &mut [u8], addr: PhysAddr, b: u8)
    requires { addr.0 < length frames.old }
    ensures { frames.new ≡ set frames.old addr.0 b }
{
    frames[addr.0 as usize] = b;
}

// Frame f becomes zeros.
pub fn zero(frames: &mut [u8], f: PhysFrame)
    requires { f.0 * 4096 + 4096 ≤ length frames.old }
    ensures { frames.new ≡ put_frame frames.old f.0 (replicate 4096 0) }
{
    put_zeros(frames, first_byte(f), FRAME_BYTES);
}

// The n frames from f on become zeros.
pub fn zero_run(frames: &mut [u8], f: PhysFrame, n: usize)
    requires { f.0 * 4096 + n * 4096 ≤ length frames.old }
    ensures { frames.new ≡ zero_frames f.0 n frames.old }
{
    put_zeros(frames, first_byte(f), n * FRAME_BYTES);
}

// Frame `to` gets the bytes of frame `from`, which may be the same.
pub fn copy(frames: &mut [u8], from: PhysFrame, to: PhysFrame)
    requires from_in_bounds { from.0 * 4096 + 4096 ≤ length frames.old }
    requires to_in_bounds { to.0 * 4096 + 4096 ≤ length frames.old }
    ensures { frames.new ≡ put_frame frames.old to.0 (frame_bytes frames.old from.0) }
{
    copy_within(frames, first_byte(from), first_byte(to), FRAME_BYTES);
}

// Frame f gets as many bytes of the files as count says, there from place at on, and zeros after them.
pub fn fill(frames: &mut [u8], f: PhysFrame, files: &[u8], at: usize, count: usize)
    requires f_in_bounds { f.0 * 4096 + 4096 ≤ length frames.old }
    requires count_bound { count ≤ 4096 }
    requires count_in_bounds { count ≤ length files.now - at }
    ensures { frames.new ≡ put_frame frames.old f.0 (pad 4096 0 (take count (drop at files.now))) }
{
    let base = first_byte(f);
    put_bytes(frames, base, files, at, count);
    put_zeros(frames, base + count, FRAME_BYTES - count);
}
