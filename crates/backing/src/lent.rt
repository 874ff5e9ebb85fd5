// The pool lent (RULES J10, X9): its free count and its next free frame are changed where they lie, by what `core` says by value.
ghost use Rattle.std.specs.Prelude.{◌≡◌, length};
ghost use Rattle.model.specs.Layout.{word_count, machine};
ghost use Rattle.model.specs.Machine.{with_pool};
ghost use Rattle.backing.specs.BackingSteps.{taken_from, given_back};

use crate::by_value::{given_back, taken};
use address::PhysFrame;
use model::Pool;
use rows::backings::put_pool;

// Takes `count` frames; `next` is the lowest that is left.
pub fn take(pool: &mut Pool, count: u64, next: PhysFrame)
    ensures { pool.new ≡ taken_from pool.old count next.0 }
{
    *pool = taken(*pool, count, next);
}

// Gives `count` frames from `frame` on back.
pub fn give_back(pool: &mut Pool, frame: PhysFrame, count: u64)
    ensures { pool.new ≡ given_back pool.old frame.0 count }
{
    *pool = given_back(*pool, frame, count);
}

// Puts the pool's row: `before` once `count` frames are taken.
pub fn put_taken(words: &mut [u64], before: Pool, count: u64, next: PhysFrame)
    requires { length words.old ≡ word_count }
    ensures { machine words.new ≡ with_pool (machine words.old) (machine words.old).backings (taken_from before count next.0) }
{
    let mut lent = before;
    take(&mut lent, count, next);
    put_pool(words, lent);
}

// Puts the pool's row: `before` once `count` frames from `frame` on are given back.
pub fn put_given_back(words: &mut [u64], before: Pool, frame: PhysFrame, count: u64)
    requires { length words.old ≡ word_count }
    ensures { machine words.new ≡ with_pool (machine words.old) (machine words.old).backings (given_back before frame.0 count) }
{
    let mut lent = before;
    give_back(&mut lent, frame, count);
    put_pool(words, lent);
}
