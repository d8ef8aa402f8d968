ghost use Rattle.std.specs.Prelude.{◌≡◌, pos, negsuc, ◌+ℤ◌, ◌-ℤ◌, ◌*ℤ◌, ◌≤ℤ◌, Decides};
ghost use Rattle.std.specs.Int.{int_min, int_max};
ghost use Rattle.numbers.specs.Rounding.{floor, ceil, floor_by, ceil_by, least, greatest};
ghost use Rattle.numbers.specs.Ends.{sum, difference, product};
ghost use Rattle.span.specs.Holding.{ends};
ghost use Rattle.rounding.specs.Sides.{HoldsZero, ratio, side, paired};

use span::shape::Span;

// Sums, differences and products of counts, exact in 64 bits.
fn add(a: i32, b: i32) -> i64
    ensures { result ≡ a +ℤ b }
{
    i64::from(a) + i64::from(b)
}

fn subtract(a: i32, b: i32) -> i64
    ensures { result ≡ a -ℤ b }
{
    i64::from(a) - i64::from(b)
}

fn multiply(a: i32, b: i32) -> i64
    ensures { result ≡ a *ℤ b }
{
    i64::from(a) * i64::from(b)
}

// Least and greatest stand in pairs, here and below: one function for both would take the order as an argument,
// and each answer would first have to say which of the two it is.

// The less of the products of a with the ends of b.
fn less(a: i32, b: Span) -> i64
    ensures { result ≡ int_min (a *ℤ b.lo) (a *ℤ b.hi) }
{
    let p = multiply(a, b.lo);
    let q = multiply(a, b.hi);
    p.min(q)
}

// The greater of them.
fn greater(a: i32, b: Span) -> i64
    ensures { result ≡ int_max (a *ℤ b.lo) (a *ℤ b.hi) }
{
    let p = multiply(a, b.lo);
    let q = multiply(a, b.hi);
    p.max(q)
}

// The least of the four products of ends.
fn least_product(a: Span, b: Span) -> i64
    ensures { result ≡ least (a.lo *ℤ b.lo) (a.lo *ℤ b.hi) (a.hi *ℤ b.lo) (a.hi *ℤ b.hi) }
{
    less(a.lo, b).min(less(a.hi, b))
}

// The greatest of them.
fn greatest_product(a: Span, b: Span) -> i64
    ensures { result ≡ greatest (a.lo *ℤ b.lo) (a.lo *ℤ b.hi) (a.hi *ℤ b.lo) (a.hi *ℤ b.hi) }
{
    greater(a.lo, b).max(greater(a.hi, b))
}

/// z / 65536 rounded down.
fn floor_units(z: i64) -> i64
    ensures { result ≡ floor z 65536 }
{
    z >> 16
}

/// z / 65536 rounded up.
fn ceil_units(z: i64) -> i64
    requires { negsuc 4611686018427387903 ≤ℤ z }
    ensures { result ≡ ceil z 65536 }
{
    -(-z >> 16)
}

// Whether a span holds 0.
fn holds_zero(s: Span) -> bool
    ensures { Decides result (HoldsZero s) }
{
    s.lo <= 0 && 0 <= s.hi
}

// A span to divide by: it does not hold 0.
#[derive(Clone, Copy)]
struct Divisor {
    span: Span,
    ghost apart: { HoldsZero span → ⊥ },
}

impl Divisor {
    ghost use Rattle.std.specs.Prelude.{◌≡◌, MatchOption};
    ghost use Rattle.rounding.specs.Sides.{HoldsZero};

    // None where the span holds 0.
    fn of(span: Span) -> Option<Divisor>
        ensures { MatchOption result (HoldsZero span) (λ d. d.span ≡ span) }
    {
        if holds_zero(span) {
            None
        } else {
            Some(Divisor { span })
        }
    }
}

// a × 65536 / q rounded down.
fn floor_ratio(a: i32, q: i32) -> i64
    requires { q ≡ pos 0 → ⊥ }
    ensures { result ≡ floor_by (a *ℤ pos 65536) q }
{
    let p = i64::from(a) * 65536;
    let q = i64::from(q);
    if q > 0 {
        p.div_euclid(q)
    } else {
        (-p).div_euclid(-q)
    }
}

// a × 65536 / q rounded up.
fn ceil_ratio(a: i32, q: i32) -> i64
    requires { q ≡ pos 0 → ⊥ }
    ensures { result ≡ ceil_by (a *ℤ pos 65536) q }
{
    let p = i64::from(a) * 65536;
    let q = i64::from(q);
    if q > 0 {
        -((-p).div_euclid(q))
    } else {
        -(p.div_euclid(-q))
    }
}

// The less of the quotients of a by the ends of b, rounded down.
fn less_quotient(a: i32, b: Divisor) -> i64
    ensures { result ≡ int_min (floor_by (a *ℤ pos 65536) b.span.lo) (floor_by (a *ℤ pos 65536) b.span.hi) }
{
    let p = floor_ratio(a, b.span.lo);
    let q = floor_ratio(a, b.span.hi);
    p.min(q)
}

// The greater of them, rounded up.
fn greater_quotient(a: i32, b: Divisor) -> i64
    ensures { result ≡ int_max (ceil_by (a *ℤ pos 65536) b.span.lo) (ceil_by (a *ℤ pos 65536) b.span.hi) }
{
    let p = ceil_ratio(a, b.span.lo);
    let q = ceil_ratio(a, b.span.hi);
    p.max(q)
}

// The least of the four quotients of ends, rounded down.
fn least_quotient(a: Span, b: Divisor) -> i64
    ensures { result ≡ least (floor_by (a.lo *ℤ pos 65536) b.span.lo) (floor_by (a.lo *ℤ pos 65536) b.span.hi) (floor_by (a.hi *ℤ pos 65536) b.span.lo) (floor_by (a.hi *ℤ pos 65536) b.span.hi) }
{
    let p = less_quotient(a.lo, b);
    let q = less_quotient(a.hi, b);
    p.min(q)
}

// The greatest of them, rounded up.
fn greatest_quotient(a: Span, b: Divisor) -> i64
    ensures { result ≡ greatest (ceil_by (a.lo *ℤ pos 65536) b.span.lo) (ceil_by (a.lo *ℤ pos 65536) b.span.hi) (ceil_by (a.hi *ℤ pos 65536) b.span.lo) (ceil_by (a.hi *ℤ pos 65536) b.span.hi) }
{
    let p = greater_quotient(a.lo, b);
    let q = greater_quotient(a.hi, b);
    p.max(q)
}

/// The ends of [a, b] + [c, d].
pub fn sum_ends(a: Span, b: Span) -> (i64, i64)
    ensures lo { result.0 ≡ (sum (ends a) (ends b)).from }
    ensures hi { result.1 ≡ (sum (ends a) (ends b)).to }
{
    (add(a.lo, b.lo), add(a.hi, b.hi))
}

/// The ends of [a, b] − [c, d].
pub fn difference_ends(a: Span, b: Span) -> (i64, i64)
    ensures lo { result.0 ≡ (difference (ends a) (ends b)).from }
    ensures hi { result.1 ≡ (difference (ends a) (ends b)).to }
{
    (subtract(a.lo, b.hi), subtract(a.hi, b.lo))
}

/// The ends of a product: the least product of two ends rounded down, the greatest rounded up.
pub fn product_ends(a: Span, b: Span) -> (i64, i64)
    ensures lo { result.0 ≡ (product (ends a) (ends b)).from }
    ensures hi { result.1 ≡ (product (ends a) (ends b)).to }
{
    (
        floor_units(least_product(a, b)),
        ceil_units(greatest_product(a, b)),
    )
}

/// The ends of a quotient: the least quotient of two ends rounded down, the greatest rounded up; none if the divisor holds 0.
pub fn quotient_ends(a: Span, b: Span) -> Option<(i64, i64)>
    ensures { paired result ≡ ratio a b (side b) }
{
    let b = Divisor::of(b)?;
    Some((least_quotient(a, b), greatest_quotient(a, b)))
}

/// The product of two counts, rounded down to a count.
pub fn product_down(a: i32, b: i32) -> i64
    ensures { result ≡ floor (a *ℤ b) 65536 }
{
    floor_units(multiply(a, b))
}
