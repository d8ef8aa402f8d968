ghost use Rattle.std.specs.Prelude.{◌≡◌};
ghost use Rattle.narrowing.specs.Passes.{narrowed_at, line, pass};
ghost use Rattle.narrowing.specs.PassLaws.{pass_laws};

use crate::parts::Unknown;
use arithmetic::reach;
use contractor::contractor::Contractor;
use enclosure::evaluate::total;
use enclosure::lines::Lines;
use enclosure::shape::Marked;
use sheet::system::System;
use span::region::Region;
use span::shape::Reach;

impl<'s> Unknown<'s> {
    // Its span meets (T − R) / A.
    fn narrow(&self, b: &Region) -> Option<Region>
        ensures { result ≡ narrowed_at (line self.now.n self.now.bounds self.now.terms.now) self.now.j b.now }
    {
        if !self.occurs() {
            return Some(*b);
        }
        let whole = total::<Reach>(self.n, self.terms, &Marked::unmarked(b));
        let t = self.aim(whole)?;
        let a = self.slope(b);
        let r = self.remainder(b);
        let x = reach::quotient(reach::difference(t, r), a);
        let s = reach::within(b.spans[self.j], x)?;
        Some(b.with_span(self.j, s))
    }
}

/// The Gauss-Seidel pass: rows in order, and in each the variables that occur in it, by number, from the box as narrowed so far.
#[derive(Clone, Copy, Debug)]
pub struct GaussSeidel;

impl Contractor for GaussSeidel {
    ghost narrowed = { λ _. pass };

    ghost laws = { λ _. pass_laws };

    fn narrow(&self, system: &System, b: &Region) -> Option<Region> {
        let n = system.n();
        let mut cur = *b;
        // one exit for both answers, out of both loops: the proof says there what a pass is
        'pass: {
            for line in Lines::of(system) {
                // the index is the number of the variable to solve for
                for j in 0..n {
                    let unknown = Unknown {
                        n,
                        j,
                        bounds: line.bounds,
                        terms: line.terms,
                    };
                    match unknown.narrow(&cur) {
                        None => break 'pass None,
                        Some(c) => cur = c,
                    }
                }
            }
            Some(cur)
        }
    }
}
