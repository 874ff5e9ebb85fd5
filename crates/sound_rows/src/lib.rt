// Whether every row fits: most of R6, a stage of the soundness test. Each function answers for any words.
#![tactic(auto)]

pub mod entries;
pub mod processes;
pub mod sizes;
pub mod slots;
