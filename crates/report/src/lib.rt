//! The lines of the reports: each row over the starting box, and what a run found.
//! The programs `nominal`, `ranges` and `vectors` print them.
//! How a line is put together may change unnoticed; its bytes may not.

#![tactic(auto)]

pub mod ranges;
pub mod row;
