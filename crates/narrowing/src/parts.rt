ghost use Rattle.std.specs.Prelude.{◌≡◌, ◌-◌, ◌<◌, ◌≤◌, slice_index, slice_set};
ghost use Rattle.narrowing.specs.Passes.{crossing};

use arithmetic::reach;
use enclosure::evaluate::term;
use enclosure::shape::Marked;
use sheet::shape::{Bounds, Term};
use span::region::Region;
use span::shape::Reach;

// A row with one of its system's n variables as the unknown that it is solved for: variable j, counted from 0.
#[derive(Clone, Copy)]
pub(crate) struct Unknown<'s> {
    pub(crate) n: usize,
    pub(crate) j: usize,
    pub(crate) bounds: Bounds,
    pub(crate) terms: &'s [Term],
    ghost few: { n ≤ 8 },
    ghost there: { j < n },
}

// A term with one power of variable j taken off.
fn lower(t: &Term, j: usize) -> Term
    requires few { j < 8 }
    requires some { 0 < slice_index t.now.exponents j }
    ensures coefficient { result.coefficient ≡ t.now.coefficient }
    ensures exponents { result.exponents ≡ slice_set t.now.exponents j (slice_index t.now.exponents j - 1) }
{
    let mut exponents = t.exponents;
    exponents[j] -= 1;
    Term {
        coefficient: t.coefficient,
        exponents,
    }
}

// [a, b], or none where the ends cross.
fn spanning(a: i32, b: i32) -> Option<Reach>
    ensures { result ≡ crossing a b }
{
    if a > b {
        return None;
    }
    Some(reach::between(i64::from(a), i64::from(b)))
}

impl<'s> Unknown<'s> {
    ghost use Rattle.std.specs.Prelude.{◌≡◌, map};
    ghost use Rattle.enclosure.specs.Rows.{term as cut};
    ghost use Rattle.enclosure.specs.Plain.{plain_row};
    ghost use Rattle.narrowing.specs.Passes.{occurs, holding, others, target};

    // Whether some term holds it.
    pub(crate) fn occurs(&self) -> bool
        ensures { result ≡ occurs self.now.j (map (cut self.now.n) self.now.terms.now) }
    {
        self.terms.iter().any(|t| t.exponents[self.j] > 0)
    }

    // This sum and the next differ in the terms and in what is left of one: a call for both would take both as closures,
    // and its contract would be longer than the two sums.

    // A: the sum of the terms that hold it, one power of it taken off.
    pub(crate) fn slope(&self, b: &Region) -> Reach
        ensures { result ≡ plain_row b.now (holding self.now.j (map (cut self.now.n) self.now.terms.now)) }
    {
        let Unknown { n, j, terms, .. } = *self;
        let m = Marked::unmarked(b);
        let mut all = reach::between(0, 0);
        for t in terms {
            if t.exponents[j] > 0 {
                let low = lower(t, j);
                let x = term::<Reach>(n, &low, &m);
                all = reach::sum(all, x);
            }
        }
        all
    }

    // R: the sum of the other terms.
    pub(crate) fn remainder(&self, b: &Region) -> Reach
        ensures { result ≡ plain_row b.now (others self.now.j (map (cut self.now.n) self.now.terms.now)) }
    {
        let Unknown { n, j, terms, .. } = *self;
        let m = Marked::unmarked(b);
        let mut all = reach::between(0, 0);
        for t in terms {
            if t.exponents[j] == 0 {
                let x = term::<Reach>(n, t, &m);
                all = reach::sum(all, x);
            }
        }
        all
    }

    // T: what the row asks for, with the end that is missing taken from the row's span.
    pub(crate) fn aim(&self, r: Reach) -> Option<Reach>
        ensures { result ≡ target self.now.bounds r }
    {
        match (self.bounds, r) {
            (Bounds::Between(t), _) => Some(Reach::Closed(t)),
            (_, Reach::Open) => Some(Reach::Open),
            (Bounds::AtLeast(lo), Reach::Closed(s)) => spanning(lo, s.hi),
            (Bounds::AtMost(hi), Reach::Closed(s)) => spanning(s.lo, hi),
        }
    }
}
