// What the benchmarks link: parts of the machine for C and Rust programs, on memory that the caller lends, without a call's soundness test.
#![tactic(auto)]

pub mod copies;
pub mod loads;
pub mod lookups;
pub mod steps;
