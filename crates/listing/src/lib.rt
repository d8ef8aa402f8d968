//! The lines that list a sheet for the file: one for each field, and one that says what an accepted sheet has.
//! The program `dump` prints them.
//! How a line is put together may change unnoticed; its bytes may not.

#![tactic(auto)]

pub mod accepted;
pub mod bytes;
pub mod field;
pub mod words;
