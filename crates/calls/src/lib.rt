// The public calls on a machine in lent memory: each takes any words, frames and files, tests them first, and answers by the rules (RULES D1).
#![tactic(auto)]

mod any_call;
mod change;
mod clones;
mod creation;
mod faults;
mod load_store;
mod look;
mod populating;
mod processes;
mod range;

pub use any_call::run;
pub use change::{clear, pin, protect, remove, unpin};
pub use clones::{clone, clone_region};
pub use creation::{create_file, create_private, create_shared};
pub use faults::fault;
pub use load_store::{load, store};
pub use look::{covers, region, regions};
pub use populating::{eager, populate};
pub use process::start::start;
pub use processes::{close, open, sound};
pub use range::carve;
