// Frames and who holds them: R2, R3, and that a backing's holders hold it at one page, a part of the soundness test.
#![tactic(auto)]

pub mod backings;
pub mod held;
pub mod holders;
pub mod onepage;
