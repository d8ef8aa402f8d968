//! One list for every kind of element, over places that the caller lends.
//! Terms, rows, boxes and filed boxes lie in it: the sheet reader and the run rest on it.
//! How it keeps its count, and what stands past the count, may change unnoticed.

#![tactic(auto)]

pub mod lent;
