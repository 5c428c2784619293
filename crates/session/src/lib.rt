#![tactic(auto)]

// A session (document 01, "Session lines"): bytes in, the engine's calls made, bytes out. Input of any length, in
// chunks, with memory that does not grow.
pub mod call; // what a line asks of the engine
pub mod report; // what a line prints
pub mod stream; // the session: open, feed, finish
