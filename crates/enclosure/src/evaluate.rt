ghost use Rattle.std.specs.Prelude.{◌≡◌, map};
ghost use Rattle.enclosure.specs.Rows.{term_of, row_of, term as cut, numbers, own_terms, row_terms};
ghost use Rattle.numbers.specs.Claims.{Proved};
ghost use Rattle.enclosure.specs.Sound.{RowHolds, row_holds};
ghost use Rattle.enclosure.specs.Evaluation.{ops, variables, enclosed};

use crate::enclosure::Enclosure;
use crate::lines::Lines;
use crate::shape::Marked;
use sheet::shape::Term;
use sheet::system::System;

/// A term over the first n spans of a marked box: its coefficient times the powers of the variables, in their order.
pub fn term<E: Enclosure>(n: usize, t: &Term, m: &Marked) -> E
    ensures { result ≡ term_of (ops E.Enclosure) (variables E.Enclosure m.now.region.now (numbers m.now.inside)) (cut n t.now) }
{
    let mut all = E::number(t.coefficient);
    // the index is the variable's number, which the enclosure takes, in three arrays of eight places
    for i in 0..n.min(8) {
        let x = E::variable(i, m.region.spans[i], m.inside[i]);
        all = all.product(x.power(t.exponents[i]));
    }
    all
}

/// 0 plus the terms, in their order.
pub fn total<E: Enclosure>(n: usize, ts: &[Term], m: &Marked) -> E
    ensures { result ≡ row_of (ops E.Enclosure) (variables E.Enclosure m.now.region.now (numbers m.now.inside)) (map (cut n) ts.now) }
{
    let mut all = E::number(0);
    for t in ts {
        all = all.sum(term::<E>(n, t, m));
    }
    all
}

/// The terms of row i, counted from 0: none where there is no row i.
pub fn own_terms<'s>(system: &System<'s>, i: usize) -> &'s [Term]
    ensures { result.now ≡ own_terms system.now i }
{
    Lines::of(system).nth(i).map_or(&[], |line| line.terms)
}

/// Row i of a system over a marked box: it holds the row's value at every point of the box.
pub fn row<E: Enclosure>(system: &System, i: usize, m: &Marked) -> E
    ensures answer { result ≡ enclosed E.Enclosure m.now.region.now (numbers m.now.inside) (row_terms system.now i) }
    ensures holds { Proved RowHolds row_holds }
{
    total::<E>(system.n(), own_terms(system, i), m)
}
