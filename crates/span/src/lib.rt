// Closed spans of counts, results that may be open, and boxes of spans: their types, how they are made, their halves.
// The sheet reader, the arithmetic, the contractors and the run are built on it.
// How a box is written may change unnoticed, as long as each answer is the one that its definition names.

#![tactic(auto)]

pub mod boxes;
pub mod halves;
pub mod make;
pub mod region;
pub mod shape;
pub mod text;
