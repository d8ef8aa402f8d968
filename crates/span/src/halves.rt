ghost use Rattle.std.specs.Prelude.{◌≡◌};
ghost use Rattle.span.specs.Halves.{width, middle, lower, upper};

use crate::shape::Span;

impl Span {
    /// How far its ends are apart: up to 4294967294, and so no count.
    pub fn width(self) -> u32
        ensures { result ≡ width self }
    {
        // between 0 and the largest u32, so the cast loses nothing; `abs_diff` took half as long again
        (i64::from(self.hi) - i64::from(self.lo)) as u32
    }

    /// The lower middle: half the sum of the ends, rounded down.
    pub fn middle(self) -> i32
        ensures { result ≡ middle self }
    {
        // between two i32, so the cast loses nothing
        ((i64::from(self.lo) + i64::from(self.hi)) >> 1) as i32
    }

    /// The lower and the upper half, which share the lower middle.
    pub fn halves(self) -> (Span, Span)
        ensures { result ≡ (lower self, upper self) }
    {
        let m = self.middle();
        (Span { lo: self.lo, hi: m }, Span { lo: m, hi: self.hi })
    }
}
