// The segment manager in place on 131 lent words: arena start, arena size, count, and 64 rows of start and length. No row is copied.
#![tactic(auto)]

pub mod lowest;
pub mod manager;
pub mod table;
