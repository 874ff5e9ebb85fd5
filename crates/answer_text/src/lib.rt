// Answers as text: those of the manager and of the machine, and what is wrong with a line.
#![tactic(auto)]

mod answer;
mod bad_line;
mod machine;
mod starts;

pub use answer::{Answer, put_answer, put_count, put_pair};
pub use bad_line::put_fault;
pub use machine::written_as;
pub use starts::put_listed;
