#![tactic(auto)]

// The five calls with the query list lent by the caller as records: what users call. Below stands the engine, which is
// lent the list as numbers.
pub mod calls; // the open calls
