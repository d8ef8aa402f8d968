// Exact arithmetic with results that may be open: an end is rounded outward and never leaves a number out, and an end past the counts makes the result open.
// The enclosures and the contractors are built on it.
// How an answer is computed may change unnoticed, as long as it is the one that its definition names.

#![tactic(auto)]

pub mod claims;
pub mod reach;
