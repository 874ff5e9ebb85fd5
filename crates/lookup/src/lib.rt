// Look-ups through the machine's tables: free rows, the region at an address, what backs a page, and whom a call names.
#![tactic(auto)]

pub mod attached;
pub mod backed;
pub mod named;
pub mod search;
