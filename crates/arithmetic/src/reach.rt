ghost use Rattle.std.specs.Prelude.{◌≡◌, Decides};
ghost use Rattle.numbers.specs.Claims.{Proved};
ghost use Rattle.span.specs.Making.{Fit};
ghost use Rattle.arithmetic.specs.Reaches.{stretch, sum, difference, product, power, quotient, within, meet};
ghost use Rattle.arithmetic.specs.Inclusion.{SumHolds, sum_holds, DifferenceHolds, difference_holds, ProductHolds, product_holds, PowerHolds, power_holds, QuotientHolds, quotient_holds, WithinHolds, within_holds, MeetHolds, meet_holds};

use rounding::ends::{difference_ends, product_ends, quotient_ends, sum_ends};
use span::shape::{Reach, Span};

// Whether two numbers are the ends of a closed span.
fn ends_fit(lo: i64, hi: i64) -> bool
    ensures { Decides result (Fit lo hi) }
{
    lo <= hi && -2147483647 <= lo && hi <= 2147483647
}

/// The span of two ends; open if they are crossed or no counts.
pub fn between(lo: i64, hi: i64) -> Reach
    ensures { result ≡ stretch lo hi }
{
    // `i32::try_from` and `Span::new` were tried in place of the test and the casts: that proof did not close
    if ends_fit(lo, hi) {
        Reach::Closed(Span {
            lo: lo as i32,
            hi: hi as i32,
        })
    } else {
        Reach::Open
    }
}

// The same, of the two ends as a pair.
fn reach(ends: (i64, i64)) -> Reach
    ensures { result ≡ stretch ends.0 ends.1 }
{
    let (lo, hi) = ends;
    between(lo, hi)
}

/// [a, b] + [c, d] is [a + c, b + d]; an open operand gives open.
pub fn sum(s: Reach, t: Reach) -> Reach
    ensures answer { result ≡ sum s t }
    ensures holds { Proved SumHolds sum_holds }
{
    s.both(t, |a, b| reach(sum_ends(a, b)))
}

/// [a, b] − [c, d] is [a − d, b − c]; an open operand gives open.
pub fn difference(s: Reach, t: Reach) -> Reach
    ensures answer { result ≡ difference s t }
    ensures holds { Proved DifferenceHolds difference_holds }
{
    s.both(t, |a, b| reach(difference_ends(a, b)))
}

/// From the least product of two ends, rounded down, to the greatest, rounded up; an open operand gives open.
pub fn product(s: Reach, t: Reach) -> Reach
    ensures answer { result ≡ product s t }
    ensures holds { Proved ProductHolds product_holds }
{
    s.both(t, |a, b| reach(product_ends(a, b)))
}

/// Power 0 is [65536, 65536], of an open span too; power k + 1 is the product of power k and the span.
pub fn power(r: Reach, k: u8) -> Reach
    ensures answer { result ≡ power r k }
    ensures holds { Proved PowerHolds power_holds }
{
    if k == 0 {
        return between(65536, 65536);
    }
    let mut all = r;
    for _i in 1..k {
        all = product(all, r);
    }
    all
}

/// From the least quotient of two ends, rounded down, to the greatest, rounded up; open if an operand is or if the divisor holds 0.
pub fn quotient(s: Reach, t: Reach) -> Reach
    ensures answer { result ≡ quotient s t }
    ensures holds { Proved QuotientHolds quotient_holds }
{
    s.both(t, |a, b| quotient_ends(a, b).map_or(Reach::Open, reach))
}

/// The part of a span that a result holds too, none if that is empty; open leaves the whole.
pub fn within(s: Span, r: Reach) -> Option<Span>
    ensures answer { result ≡ within s r }
    ensures holds { Proved WithinHolds within_holds }
{
    match r {
        Reach::Open => Some(s),
        Reach::Closed(u) => Span::new(s.lo.max(u.lo), s.hi.min(u.hi)),
    }
}

/// The common part, none if it is empty; open leaves the other.
pub fn meet(s: Reach, t: Reach) -> Option<Reach>
    ensures answer { result ≡ meet s t }
    ensures holds { Proved MeetHolds meet_holds }
{
    match s {
        Reach::Open => Some(t),
        Reach::Closed(a) => within(a, t).map(Reach::Closed),
    }
}
