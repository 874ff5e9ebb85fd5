// The segment table as a lent slice of segment records: found, put in and taken out where the rows lie.
#![tactic(auto)]

mod by_value;
pub mod lent;
