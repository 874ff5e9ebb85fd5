// The core of creating a region: its refusals, where it goes and what backs it, and the row that is put.
#![tactic(auto)]

pub mod kinds;
pub mod make;
pub mod plan;
pub mod refusals;
pub mod wanted;
