ghost use Rattle.std.specs.Prelude.{Some};
ghost use Rattle.span.specs.Text.{span_text};

use crate::shape::Span;
use std::fmt;

impl fmt::Display for Span {
    ghost output = { λ s. Some (span_text s) };

    fn fmt<W: fmt::Write>(&self, f: &mut fmt::Formatter<W>) -> fmt::Result {
        let Span { lo, hi } = self;
        write!(f, "{lo}..{hi}")
    }
}
