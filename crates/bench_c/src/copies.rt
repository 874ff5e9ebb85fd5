// The bytes of frames for C and Rust programs, on bytes that the caller lends. A frame that is not among them is left alone.
ghost use Rattle.std.specs.Prelude.{◌≡◌};
ghost use Rattle.bench_c.specs.FramesOn.{zero_on, copy_on};

use address::PhysFrame;
use model::FRAME_BYTES;

// Frame f becomes zeros.
#[unsafe(no_mangle)]
pub extern "C" fn frames_zero(frames: &mut [u8], f: usize)
    ensures { frames.new ≡ zero_on frames.old f }
{
    if f < frames.len() / FRAME_BYTES {
        frames::zero(frames, PhysFrame(f as u64));
    }
}

// Frame `to` gets the bytes of frame `from`.
#[unsafe(no_mangle)]
pub extern "C" fn frames_copy(frames: &mut [u8], from: usize, to: usize)
    ensures { frames.new ≡ copy_on frames.old from to }
{
    if from < frames.len() / FRAME_BYTES {
        if to < frames.len() / FRAME_BYTES {
            frames::copy(frames, PhysFrame(from as u64), PhysFrame(to as u64));
        }
    }
}
