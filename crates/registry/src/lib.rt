#![tactic(auto)]

// The list of registered queries, lent as numbers, and what is judged on it: the checks of the calls, where windows
// have an edge, which queries are due.
pub mod list; // the list: where its records stand, and the queries that it holds
pub mod find; // where a query stands in it
pub mod edit; // a query joins, a query leaves
pub mod scan; // a look at every registered query: edges, horizon, due queries
pub mod bits; // the fields of many records, tested at once
pub mod checks; // checks 1 and 2 on the list, and checks 3 to 11
