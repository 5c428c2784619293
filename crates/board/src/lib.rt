#![tactic(auto)]

// The board: what is closed, on six lent tables, as a list of aggregates. It knows neither readings nor queries.
pub mod aggregate; // the aggregates of a stretch of readings
pub mod tables; // the lent tables: their lengths, and zeroing them
pub mod heads; // the values of a window that begins at the horizon
pub mod board; // closing an aggregate, and the value of all that are closed from a start on
