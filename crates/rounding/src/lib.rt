// The ends of sums, differences, products and quotients of spans, exact in 64 bits and rounded outward.
// The arithmetic of results is built on it.
// How an end is found may change unnoticed, as long as it is the one that its definition over whole numbers names.

#![tactic(auto)]

pub mod ends;
