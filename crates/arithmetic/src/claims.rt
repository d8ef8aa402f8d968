ghost use Rattle.std.specs.Prelude.{◌≡◌, pos, negsuc};
ghost use Rattle.numbers.specs.Claims.{Proved};
ghost use Rattle.numbers.specs.Numbers.{Numbers};
ghost use Rattle.numbers.proofs.Fractions.{fractions};
ghost use Rattle.arithmetic.specs.Reaches.{stretch};
ghost use Rattle.arithmetic.specs.Inclusion.{HoldsIs, holds_is};
ghost use Rattle.arithmetic.specs.Facts.{ProductOutward, QuotientOutward, DividedByZero, SumAtLimit, SumPastLimit, PowerOne, SquareKeepsBoth, SplitRoundsDown};

use crate::reach::{between, product};
use span::shape::Reach;

/// The span of the number 1. Its contract also says what every span means, and that fractions are numbers for which that holds.
pub fn one() -> Reach
    ensures answer { result ≡ stretch (pos 65536) (pos 65536) }
    ensures meaning { Proved HoldsIs holds_is }
    ensures fractions { Proved Numbers fractions }
{
    between(65536, 65536)
}

/// A product that is rounded outward, [−1, −1] × [1, 1]; its contract lists values of the definitions.
pub fn rounded_outward() -> Reach
    ensures answer { result ≡ stretch (negsuc 0) (pos 0) }
    ensures product { ProductOutward }
    ensures quotient { QuotientOutward }
    ensures divided { DividedByZero }
    ensures limit { SumAtLimit }
    ensures past { SumPastLimit }
    ensures itself { PowerOne }
    ensures square { SquareKeepsBoth }
    ensures split { SplitRoundsDown }
{
    product(between(-1, -1), between(1, 1))
}
