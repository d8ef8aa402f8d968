ghost use Rattle.std.specs.Prelude.{◌≤ℤ◌};

use span::region::Region;
use span::shape::{Reach, Span};

/// What the rows say of a box: every point of it meets them, none does, or neither is shown.
#[derive(Clone, Copy, Debug, PartialEq, Eq)]
pub enum Judgement {
    Met,
    Broken,
    Unsure,
}

/// A closed span with a nominal count between its ends.
#[derive(Clone, Copy, Debug, PartialEq, Eq)]
pub struct NominalSpan {
    pub span: Span,
    pub nominal: i32,
    ghost above: { span.lo ≤ℤ nominal },
    ghost under: { nominal ≤ℤ span.hi },
}

/// What a computation with nominal spans gives.
pub type NominalReach = Reach<NominalSpan>;

/// A box with a number for each of its places, which a nominal span starts from. A plain span has no use for it.
#[derive(Clone, Copy, Debug)]
pub struct Marked<'b> {
    pub region: &'b Region,
    // by place, as the spans of the box are, which stays as it is
    pub inside: [i32; 8],
}

impl<'b> Marked<'b> {
    ghost use Rattle.std.specs.Prelude.{◌≡◌, replicate, pos};
    ghost use Rattle.span.specs.Regions.{middles};

    /// The box with its lower middles.
    pub fn at_middles(region: &'b Region) -> Marked<'b>
        ensures region { result.region.now ≡ region.now }
        ensures inside { result.inside ≡ middles region.now }
    {
        Marked {
            region,
            inside: region.middles(),
        }
    }

    /// The box with no numbers of its own: 0 in each place.
    pub fn unmarked(region: &'b Region) -> Marked<'b>
        ensures region { result.region.now ≡ region.now }
        ensures inside { result.inside ≡ replicate 8 (pos 0) }
    {
        Marked {
            region,
            inside: [0; 8],
        }
    }
}
