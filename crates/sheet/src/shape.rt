ghost use Rattle.std.specs.Prelude.{◌≡◌, ◌≤◌, length, replicate, pos, negsuc, ◌≤ℤ◌};
ghost use Rattle.numbers.specs.Rows.{degree};
ghost use Rattle.sheet.specs.declared.shape.Bounds.TheVariants.{AtLeast};

use span::shape::Span;

/// What a row asks of its value.
#[derive(Clone, Copy, Debug, PartialEq, Eq)]
pub enum Bounds {
    AtLeast(i32),
    AtMost(i32),
    Between(Span),
}

/// A row: what it asks, and how many of the terms are its own.
// The rows and the terms are two flat lists, for they lie in places that the caller lends.
#[derive(Clone, Copy, Debug, PartialEq, Eq)]
pub struct Row {
    pub bounds: Bounds,
    pub own: usize,
}

/// A term: a coefficient, and the exponents of the variables in the first places of eight.
// Eight places and no count beside them: how many variables there are is the system's to say.
#[derive(Clone, Copy, Debug, PartialEq, Eq)]
pub struct Term {
    pub coefficient: i32,
    pub exponents: [u8; 8],
    ghost whole: { length exponents ≡ 8 },
    ghost least: { negsuc 2147483646 ≤ℤ coefficient },
    ghost small: { degree exponents ≤ 4 },
}

// not derived: what a row asks has no default of its own
impl Default for Row {
    ghost is_default = { λ r. r ≡ record { bounds = AtLeast (pos 0); own = 0 } };

    fn default() -> Row {
        Row {
            bounds: Bounds::AtLeast(0),
            own: 0,
        }
    }
}

// not derived: a struct with ghost fields cannot derive it
impl Default for Term {
    ghost is_default = { λ t. (t.coefficient ≡ pos 0) × (t.exponents ≡ replicate 8 0) };

    fn default() -> Term {
        Term {
            coefficient: 0,
            exponents: [0; 8],
        }
    }
}
