// What ends a region: it is dropped, removed, or cleared with all of its process.
#![tactic(auto)]

pub mod clear;
pub mod cores;
pub mod drop;
pub mod region;
