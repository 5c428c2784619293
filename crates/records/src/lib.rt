#![tactic(auto)]

// The query list as the caller lends it: a slice of records, 32 or more.
pub mod copy; // the first 32 records copied to an array, and put back
pub mod list; // find, append and withdraw on the lent list
pub mod laid; // the array as the numbers that the layer below is lent
