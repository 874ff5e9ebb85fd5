// Theorems alone: where a request departs from the Rust, and where not.
#![tactic(auto)]
