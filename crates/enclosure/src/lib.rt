// Enclosures of numbers, one evaluator of rows for every kind of them, and what the rows of a system say of a box.
// The contractors and the run are built on it.
// How an enclosure computes may change unnoticed as long as it keeps its laws; so may the way in which a row's terms are found.

#![tactic(auto)]

pub mod enclosure;
pub mod evaluate;
pub mod judge;
pub mod lines;
pub mod nominal;
pub mod plain;
pub mod shape;
