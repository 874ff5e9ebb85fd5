// The machine's state as text, a line at a time.
#![tactic(auto)]

mod cursor;
mod detached;
mod lines;
mod places;
mod state;
mod sums;

pub use cursor::{Cursor, Shown};
pub use state::put_state;
