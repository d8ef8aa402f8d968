ghost use Rattle.arithmetic.specs.Reaches.{sum, product, power};
ghost use Rattle.enclosure.specs.Plain.{plain_holds, plain_number, plain_variable, plain_laws};

use crate::enclosure::Enclosure;
use arithmetic::reach;
use span::shape::{Reach, Span};

// The plain span.
impl Enclosure for Reach {
    ghost holds = { plain_holds };

    ghost numbered = { plain_number };

    ghost coordinate = { plain_variable };

    ghost plus = { sum };

    ghost times = { product };

    ghost raised = { power };

    ghost spanned = { λ r. r };

    ghost laws = { plain_laws };

    fn number(c: i32) -> Reach {
        reach::between(i64::from(c), i64::from(c))
    }

    fn variable(i: usize, s: Span, inside: i32) -> Reach {
        Reach::Closed(s)
    }

    fn sum(self, other: Reach) -> Reach {
        reach::sum(self, other)
    }

    fn product(self, other: Reach) -> Reach {
        reach::product(self, other)
    }

    fn power(self, e: u8) -> Reach {
        reach::power(self, e)
    }

    fn span(self) -> Reach {
        self
    }
}
