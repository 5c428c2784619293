#![tactic(auto)]

// The engine: its state by value, the tables and the answer places lent by the caller.
pub mod partial; // the open partial
pub mod state; // the state, and what is judged on it
pub mod closing; // a partial closes
pub mod answers; // the due queries are answered
pub mod checks; // the checks of a call on entry
pub mod calls; // the open calls
