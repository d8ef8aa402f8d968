ghost use Rattle.std.specs.Prelude.{◌≡◌};
ghost use Rattle.span.specs.declared.shape.Reach.TheVariants.{Closed};
ghost use Rattle.enclosure.specs.Nominals.{nominal_holds, nominal_number, nominal_variable, nominal_sum, nominal_product, nominal_power, nominal_span, nominal_laws, nominal_at, nominal_in, Around};

use crate::enclosure::Enclosure;
use crate::shape::{NominalReach, NominalSpan};
use arithmetic::reach;
use rounding::ends::product_down;
use span::shape::{Reach, Span};

// A result with a count between its ends.
fn around(r: Reach, m: i64) -> NominalReach
    requires { Around r m }
    ensures span { nominal_span result ≡ r }
    ensures count { nominal_at result ≡ nominal_in r m }
{
    // a match, for only of a closed one is it known that m lies in it, and so that the cast loses nothing
    match r {
        Reach::Open => Reach::Open,
        Reach::Closed(span) => Reach::Closed(NominalSpan {
            span,
            nominal: m as i32,
        }),
    }
}

fn closed_sum(a: NominalSpan, b: NominalSpan) -> NominalReach
    ensures { result ≡ nominal_sum (Closed a) (Closed b) }
{
    let s = reach::sum(Reach::Closed(a.span), Reach::Closed(b.span));
    around(s, i64::from(a.nominal) + i64::from(b.nominal))
}

fn closed_product(a: NominalSpan, b: NominalSpan) -> NominalReach
    ensures { result ≡ nominal_product (Closed a) (Closed b) }
{
    let s = reach::product(Reach::Closed(a.span), Reach::Closed(b.span));
    around(s, product_down(a.nominal, b.nominal))
}

fn sum_of(p: NominalReach, q: NominalReach) -> NominalReach
    ensures { result ≡ nominal_sum p q }
{
    p.both(q, closed_sum)
}

fn product_of(p: NominalReach, q: NominalReach) -> NominalReach
    ensures { result ≡ nominal_product p q }
{
    p.both(q, closed_product)
}

// Not `reach::power` over another product: a nominal power is told from power 0 up.
fn power_of(p: NominalReach, k: u8) -> NominalReach
    ensures { result ≡ nominal_power p k }
{
    let one = reach::between(65536, 65536);
    let mut all = around(one, 65536);
    for _i in 0..k {
        all = product_of(all, p);
    }
    all
}

// The nominal span: its span is the plain one.
impl Enclosure for NominalReach {
    ghost holds = { nominal_holds };

    ghost numbered = { nominal_number };

    ghost coordinate = { nominal_variable };

    ghost plus = { nominal_sum };

    ghost times = { nominal_product };

    ghost raised = { nominal_power };

    ghost spanned = { nominal_span };

    ghost laws = { nominal_laws };

    fn number(c: i32) -> NominalReach {
        let r = reach::between(i64::from(c), i64::from(c));
        around(r, i64::from(c))
    }

    // A number outside the span is brought to the nearest end.
    fn variable(i: usize, s: Span, inside: i32) -> NominalReach {
        Reach::Closed(NominalSpan {
            span: s,
            nominal: inside.clamp(s.lo, s.hi),
        })
    }

    fn sum(self, other: NominalReach) -> NominalReach {
        sum_of(self, other)
    }

    fn product(self, other: NominalReach) -> NominalReach {
        product_of(self, other)
    }

    fn power(self, e: u8) -> NominalReach {
        power_of(self, e)
    }

    fn span(self) -> Reach {
        // a match: the only place where a closed one is turned without a test
        match self {
            Reach::Open => Reach::Open,
            Reach::Closed(a) => Reach::Closed(a.span),
        }
    }
}
