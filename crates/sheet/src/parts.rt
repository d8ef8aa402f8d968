ghost use Rattle.std.specs.Prelude.{◌≡◌, replicate, pos};
ghost use Rattle.sheet.specs.declared.shape.Bounds.TheVariants.{AtLeast};

use crate::shape::{Row, Term};
use crate::system::System;

/// What stands in a row's place before one is read: at least 0, with no term.
pub fn blank_row() -> Row
    ensures { result ≡ record { bounds = AtLeast (pos 0); own = 0 } }
{
    Row::default()
}

/// What stands in a term's place before one is read: 0, with no variable.
pub fn blank_term() -> Term
    ensures coefficient { result.coefficient ≡ pos 0 }
    ensures exponents { result.exponents ≡ replicate 8 0 }
{
    Term::default()
}

impl<'s> System<'s> {
    /// How many variables it has.
    pub fn n(&self) -> usize
        ensures { result ≡ self.now.n }
    {
        self.n
    }

    /// Its rows.
    pub fn rows(&self) -> &'s [Row]
        ensures { result.now ≡ self.now.rows.now }
    {
        self.rows
    }

    /// The terms of all rows, in sheet order.
    pub fn terms(&self) -> &'s [Term]
        ensures { result.now ≡ self.now.terms.now }
    {
        self.terms
    }
}
