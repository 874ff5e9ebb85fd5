// The pool's row by value: frames taken from it, and frames given back.
ghost use Rattle.std.specs.Prelude.{◌≡◌};
ghost use Rattle.backing.specs.BackingSteps.{taken_from, given_back};

use address::PhysFrame;
use model::Pool;

// The pool once `count` frames are taken and `next` is the lowest that is left.
pub fn taken(pool: Pool, count: u64, next: PhysFrame) -> Pool
    ensures { result ≡ taken_from pool count next.0 }
{
    Pool {
        free: pool.free.saturating_sub(count),
        next,
    }
}

// The pool once `count` frames from `frame` on are free again.
pub fn given_back(pool: Pool, frame: PhysFrame, count: u64) -> Pool
    ensures { result ≡ given_back pool frame.0 count }
{
    let free = pool.free.wrapping_add(count);
    if frame < pool.next {
        return Pool { free, next: frame };
    }
    Pool { free, ..pool }
}
