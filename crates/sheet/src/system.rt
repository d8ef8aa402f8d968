ghost use Rattle.std.specs.Prelude.{◌≤◌};

use crate::shape::{Row, Term};

/// A system: how many variables it has, its rows, and their terms in sheet order.
// It is had only from an accepted sheet: nothing outside this crate makes one.
#[derive(Clone, Copy, Debug, PartialEq, Eq)]
pub struct System<'s> {
    pub(crate) n: usize,
    pub(crate) rows: &'s [Row],
    pub(crate) terms: &'s [Term],
    ghost few: { n ≤ 8 },
}
