// Theorems alone: what the definitions of crate `model` compute beside the edges.
#![tactic(auto)]
