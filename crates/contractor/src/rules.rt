ghost use Rattle.std.specs.Prelude.{◌≡◌};
ghost use Rattle.contractor.specs.Rules.{first_of, first_laws, FirstIs, widest, widest_of, widest_laws, WidestIs, TieBroken};

use crate::rule::SplittingRule;
use span::region::Region;

/// The widest variable, of several the one with the lowest number; variables are numbered from 0.
pub fn widest_variable(b: &Region) -> usize
    ensures answer { result ≡ widest b.now }
    ensures is { WidestIs }
    ensures tie { TieBroken }
{
    let mut best = 0;
    for (i, s) in b.spans[..b.n].iter().enumerate() {
        if s.width() > b.spans[best].width() {
            best = i;
        }
    }
    best
}

/// The variable with the lowest number that is wider than the tolerance.
pub fn first_wider(b: &Region, tolerance: u32) -> Option<usize>
    ensures answer { result ≡ first_of b.now tolerance }
    ensures is { FirstIs }
{
    b.spans[..b.n].iter().position(|s| s.width() > tolerance)
}

/// Names the widest variable.
#[derive(Clone, Copy, Debug)]
pub struct Widest;

impl SplittingRule for Widest {
    ghost named = { λ _. widest_of };

    ghost laws = { λ _. widest_laws };

    fn name(&self, b: &Region, tolerance: u32) -> Option<usize> {
        let best = widest_variable(b);
        (b.spans[best].width() > tolerance).then_some(best)
    }
}

/// Names the first variable that is wide enough.
#[derive(Clone, Copy, Debug)]
pub struct First;

impl SplittingRule for First {
    ghost named = { λ _. first_of };

    ghost laws = { λ _. first_laws };

    fn name(&self, b: &Region, tolerance: u32) -> Option<usize> {
        first_wider(b, tolerance)
    }
}
