// The numbers that a row is worked out in: what they are, the integers and the counts among them, fractions as one kind of them, and what roundings and ends of spans say of them.
// The definitions and laws of every other crate speak of them.
// How a law is proved, and the ring normaliser, may change unnoticed; there is no code here.

#![tactic(auto)]
