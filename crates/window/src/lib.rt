#![tactic(auto)]

// What a window means: the leaf functions on numbers, each proved equal to its definition in specs/. The reference
// model, the starred cases and the laws of windows stand in specs/ and proofs/ and have no code.
pub mod count; // a count of readings, and its casts
pub mod query; // a query: when it is due, where its windows begin and end, its edges
pub mod refusal; // the refusals by name and number, and the checks of a registration's fields
