//! What the programs share: the sheet from standard input, the fault that a program ends with, and the whole of a program that prints what it makes of a sheet.
//! `dump`, `nominal` and `ranges` rest on it.
//! How the input is read may change unnoticed; the refusal that a fault is told as may not.

#![tactic(auto)]

pub mod fault;
pub mod intake;
pub mod serve;
