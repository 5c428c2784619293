#![tactic(auto)]

// Session lines, read (document 01, "Session lines"): from the bytes of a line to what it asks, or the refusal that it
// gets.
pub mod fields; // a line's fields, one after the other
pub mod numbers; // digits, and the widths of numbers
pub mod line; // a whole line
pub mod kept; // the current line of an input, as it comes
