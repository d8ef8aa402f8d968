ghost use Rattle.std.specs.Prelude.{◌≡◌, [], pos, ◌≤ℤ◌};

use crate::few::Few;
use span::shape::Span;

/// A variable's name: at most eight bytes.
// No `Display`: lines are made of bytes, as a name is.
#[derive(Clone, Copy, Debug, Default, PartialEq, Eq)]
pub struct Name {
    pub(crate) bytes: Few<u8, 8>,
}

/// A variable: its name, its span, and a nominal count inside the span.
#[derive(Clone, Copy, Debug, PartialEq, Eq)]
pub struct Variable {
    pub name: Name,
    pub span: Span,
    pub nominal: i32,
    ghost above: { span.lo ≤ℤ nominal },
    ghost under: { nominal ≤ℤ span.hi },
}

// not derived: a struct with ghost fields cannot derive it
impl Default for Variable {
    ghost is_default = { λ v. (v.name.bytes.items ≡ []) × ((v.span.lo ≡ pos 0) × ((v.span.hi ≡ pos 0) × (v.nominal ≡ pos 0))) };

    fn default() -> Variable {
        Variable {
            name: Name::default(),
            span: Span { lo: 0, hi: 0 },
            nominal: 0,
        }
    }
}
