#![tactic(auto)]

// Session lines, written (document 01, "Session lines"): the bytes of A, E and T lines, put into a lent slice.
pub mod output; // bytes, numbers and fields
pub mod line; // whole lines
