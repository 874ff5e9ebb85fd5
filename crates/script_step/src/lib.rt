// One line of a script: what it answers and leaves, of the lone manager or of the machine.
#![tactic(auto)]

pub mod file;
pub mod lone;
pub mod machine;
pub mod said;
