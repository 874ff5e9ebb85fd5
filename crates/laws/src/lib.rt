// Theorems alone: lists, tables of rows and tests of them, and what loops over them know; below every other crate.
#![tactic(auto)]
