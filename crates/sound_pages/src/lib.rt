// Pages and their homes: R4, R5, and that entries are one a page, a part of the soundness test.
#![tactic(auto)]

pub mod mapped;
pub mod once;
