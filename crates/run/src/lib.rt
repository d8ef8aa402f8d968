//! A run: a starting box is sorted into feasible and undecided boxes, one settled box after another.
//! The program `ranges` and its report rest on it.
//! How the hand, the count and the lists are kept may change unnoticed.

#![tactic(auto)]

pub mod lists;
pub mod method;
pub mod run;
pub mod shape;
