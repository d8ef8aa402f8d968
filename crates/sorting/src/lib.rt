//! The run of a sheet to its end, as the report tells it.
//! `ranges` prints it, and `solutions` compares it with programs written apart.
//! How the boxes are narrowed, and which is split next, may change unnoticed as far as the contract names them.

#![tactic(auto)]

pub mod sorted;
