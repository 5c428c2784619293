#![tactic(auto)]

// Rings over lent tables: the closed partials with their sums, and the monotonic deques of maxima and minima. Every
// function equals a function of the list of entries that the ring holds.
pub mod ring; // a ring over the first 4,096 places: moving on, evicting, one entry more
mod starts; // the search in a ring, by the starts of its entries
pub mod compare; // the one comparison of two partials' values
pub mod extremes; // the monotonic deque: the closing step, and the extreme of a window
pub mod sums; // the partials with their sums: the closing step, and the sum of a window
