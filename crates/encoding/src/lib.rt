#![tactic(auto)]

// The state as numbers, for callers that lend numbers alone.
mod cases; // the cases of an open partial, as numbers
pub mod signed; // a signed number as an unsigned one
pub mod state; // the state as 18 numbers
