// The segment manager: which addresses of an arena are reserved. The Rust's crate kernel_virtual_memory.
#![tactic(auto)]

mod manager;
mod table;

pub use manager::{Answered, ListAnswer};
pub use segment::Segment;
pub use table::VirtualMemoryManager;
