// Calls and answers as words: which call words name, and what of an answer stands where.
#![tactic(auto)]

pub mod asked;
pub mod told;
