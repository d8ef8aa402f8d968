//! Solving to the end: boxes are taken and settled until a call is refused.
//! The program `ranges` makes this call.
//! The order of work may change unnoticed as long as it is one of taking and settling.

#![tactic(auto)]

pub mod shape;
pub mod solve;
