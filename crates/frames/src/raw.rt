// Bytes of a lent slice, put from a place on.
ghost use Rattle.std.specs.Prelude.{◌≡◌, ◌+◌, ◌-◌, ◌≤◌, length, take, drop, replicate};
ghost use Rattle.frames.specs.PutBytes.{put_at};

// As many zeros as count says, from place at on.
pub fn put_zeros(to: &mut [u8], at: usize, count: usize)
    requires { at + count ≤ length to.old }
    ensures { to.new ≡ put_at to.old at (replicate count 0) }
{
    // No `fill`: what the must-fail edit `zero_starts_late` says wrongly, that the first byte stays, needs the loop.
    for i in 0..count {
        to[at + i] = 0;
    }
}

// As many bytes of another slice as count says, there from place start on, here from place at on.
pub fn put_bytes(to: &mut [u8], at: usize, from: &[u8], start: usize, count: usize)
    requires count_in_bounds { at + count ≤ length to.old }
    requires count_in_bounds_2 { count ≤ length from.now - start }
    ensures { to.new ≡ put_at to.old at (take count (drop start from.now)) }
{
    // No `copy_from_slice`: of a length that is not known the compiler makes a call of `memmove`, which the archives for C would then need
    // from outside.
    for k in 0..count {
        to[at + k] = from[start + k];
    }
}

// As many bytes of the slice itself as count says, from place start on, put from place at on, as they were before.
pub fn copy_within(bytes: &mut [u8], start: usize, at: usize, count: usize)
    requires count_in_bounds { start + count ≤ length bytes.old }
    requires count_in_bounds_2 { at + count ≤ length bytes.old }
    ensures { bytes.new ≡ put_at bytes.old at (take count (drop start bytes.old)) }
{
    bytes.copy_within(start..start + count, at);
}
