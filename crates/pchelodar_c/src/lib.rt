#![tactic(auto)]

// The engine for programs in C and Rust: the five calls on lent slices of numbers alone.
pub mod calls; // the five calls, by their names in C
mod numbers; // the five calls on lent numbers, with tables in one struct and refusals by name
