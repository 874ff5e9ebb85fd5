// Processes begin and end: start, which makes the empty machine, open and close.
#![tactic(auto)]

pub mod close;
pub mod opened;
pub mod start;
