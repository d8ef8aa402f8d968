// What narrows a box and what names the variable to split: the two traits with their laws, layers of contractors, and the splitting rules.
// The row test and the pass are contractors of the crate above; the run knows both traits by their laws alone.
// How a layer or a rule computes its answer may change unnoticed, as long as it stays the one that its definition names.

#![tactic(auto)]

pub mod contractor;
pub mod layers;
pub mod rule;
pub mod rules;
pub mod solving;
