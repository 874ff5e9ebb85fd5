// A process's page table in the flat model: its mapped pages in page order, in place on the machine's lent words.
#![tactic(auto)]

pub mod mapper;
pub mod mappings;
pub mod search;
