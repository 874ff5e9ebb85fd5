// What a line of a script asks for: of the lone manager, or of the machine.
#![tactic(auto)]

mod asked;
mod digits;
mod operand;
mod parse;
mod values;
mod word_list;

pub use asked::{Asked, Fault, LoneCall, Why, whole_fault};
pub use parse::held_call;
