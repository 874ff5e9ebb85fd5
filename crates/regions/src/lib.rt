// A process's regions: the region at an address, whether they cover a range, their starts, a region more or less in the list.
#![tactic(auto)]

pub mod add;
pub mod counts;
pub mod cover;
pub mod detach;
pub mod list;
pub mod look;
pub mod slot;
