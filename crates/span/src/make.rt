ghost use Rattle.std.specs.Prelude.{◌≡◌};
ghost use Rattle.span.specs.Making.{made, is_count};

use crate::shape::Span;

/// Whether z is a count: every i32 but the least.
pub fn is_count(z: i32) -> bool
    ensures { result ≡ is_count z }
{
    -2147483647 <= z
}

impl Span {
    /// The closed span of two ends; none if they are crossed or no counts.
    pub fn new(lo: i32, hi: i32) -> Option<Span>
        ensures { result ≡ made lo hi }
    {
        if lo <= hi && is_count(lo) {
            Some(Span { lo, hi })
        } else {
            None
        }
    }
}
