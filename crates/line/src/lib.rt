//! Report lines: their pieces, appended to a text, and the way of a line into a buffer that the caller lends.
//! Every line that a program prints goes through it.
//! How a piece is worked out and where the text lies meanwhile may change unnoticed.

#![tactic(auto)]

pub mod fault;
pub mod lend;
pub mod piece;
pub mod refusal;
pub mod shape;
