//! The reader of sheets: cuts a sheet into fields, takes each into what was gathered, and holds the last accepted sheet over lent places.
//! The listing, the enclosures, the contractors and the run take systems, variables and the starting box from here.
//! How the fields are walked, what is gathered on the way and how names and headings lie in memory may change unnoticed, as long as each sheet is accepted with the content, or refused with the fault, that the format names.

#![tactic(auto)]

pub mod content;
mod decode;
mod few;
pub mod field;
mod gather;
pub mod heading;
pub mod parts;
pub mod shape;
pub mod sheet;
pub mod system;
pub mod variable;
mod walk;
