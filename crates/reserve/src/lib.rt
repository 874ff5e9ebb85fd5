// Where a new region's segment goes: a given start that no region of the process reserves, or the lowest free one of its arena.
#![tactic(auto)]

pub mod lowest;
pub mod taken;
