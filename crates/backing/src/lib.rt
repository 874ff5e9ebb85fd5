// The frame pool and the holders of backings, in place on the lent words.
#![tactic(auto)]

pub mod by_value;
pub mod free;
pub mod holders;
pub mod lent;
