// The contractors of the solver: the row test and the Gauss-Seidel pass.
// Programs choose them and lay them over each other; the run takes any of them.
// How the pass finds the terms of a variable may change unnoticed, as long as each answer stays the one that its definition names.

#![tactic(auto)]

mod parts;
pub mod pass;
pub mod test;
