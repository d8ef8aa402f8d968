ghost use Rattle.std.specs.Prelude.{◌≡◌};
ghost use Rattle.numbers.specs.Claims.{Proved};
ghost use Rattle.enclosure.specs.Rows.{lines, numbers};
ghost use Rattle.enclosure.specs.Evaluation.{judged};
ghost use Rattle.enclosure.specs.Judging.{joined, at_least, at_most, judged_row};
ghost use Rattle.enclosure.specs.Exact.{MetExactly, met_exactly, BrokenExactly, broken_exactly};
ghost use Rattle.enclosure.specs.Facts.{AtTheBound, PastTheBound, OverTheBound};
ghost use Rattle.enclosure.specs.declared.shape.Judgement.TheVariants.{Unsure};
ghost use Rattle.enclosure.specs.Points.{Point, Lies, MetAll, Bridge};
ghost use Rattle.enclosure.specs.Sound.{Tells, JudgedTells, system_tells, NominalAlike};

use crate::enclosure::Enclosure;
use crate::evaluate::total;
use crate::lines::Lines;
use crate::shape::{Judgement, Marked};
use arithmetic::reach::between;
use sheet::shape::Bounds;
use sheet::system::System;
use span::shape::{Reach, Span};

// Broken if one is, met if both are, otherwise unsure.
// Not `min` over an order of judgements: nothing else would use that order, and here the three answers are seen.
fn join(j: Judgement, k: Judgement) -> Judgement
    ensures { result ≡ joined j k }
{
    match (j, k) {
        (Judgement::Broken, _) | (_, Judgement::Broken) => Judgement::Broken,
        (Judgement::Met, Judgement::Met) => Judgement::Met,
        _ => Judgement::Unsure,
    }
}

// The two ends of a row look at opposite ends of the span, so they are two functions.
fn above(lo: i32, s: Span) -> Judgement
    ensures { result ≡ at_least lo s }
{
    if lo <= s.lo {
        Judgement::Met
    } else if lo <= s.hi {
        Judgement::Unsure
    } else {
        Judgement::Broken
    }
}

fn under(hi: i32, s: Span) -> Judgement
    ensures { result ≡ at_most hi s }
{
    if s.hi <= hi {
        Judgement::Met
    } else if s.lo <= hi {
        Judgement::Unsure
    } else {
        Judgement::Broken
    }
}

/// Met if each number of the span is one that the row asks for, broken if none is, otherwise unsure.
pub fn judge_row(bounds: Bounds, r: Reach) -> Judgement
    ensures answer { result ≡ judged_row bounds r }
    ensures met { Proved MetExactly met_exactly }
    ensures broken { Proved BrokenExactly broken_exactly }
{
    match r {
        Reach::Open => Judgement::Unsure,
        Reach::Closed(s) => match bounds {
            Bounds::AtLeast(lo) => above(lo, s),
            Bounds::AtMost(hi) => under(hi, s),
            Bounds::Between(t) => join(above(t.lo, s), under(t.hi, s)),
        },
    }
}

/// What the rows of a system say of a marked box, in one kind of enclosure.
/// Met means that every point of the box meets every row, broken that none does, unsure nothing: in whole numbers where box and system have as many variables, and over every kind of number.
/// The bridge says what whole numbers have to do with fractions; the span of a nominal row is the plain one, so both kinds judge alike.
pub fn judge<E: Enclosure>(system: &System, m: &Marked) -> Judgement
    ensures answer { result ≡ judged E.Enclosure m.now.region.now (numbers m.now.inside) (lines system.now) }
    ensures sound { m.now.region.now.n ≡ system.now.n → (p : Point) → Lies p m.now.region.now → Tells result (MetAll p (lines system.now)) }
    ensures everywhere { Proved JudgedTells system_tells }
    ensures bridge { Bridge }
    ensures alike { NominalAlike }
{
    let n = system.n();
    let mut all = Judgement::Met;
    for line in Lines::of(system) {
        let e = total::<E>(n, line.terms, m);
        all = join(all, judge_row(line.bounds, e.span()));
    }
    all
}

/// What a row that asks for at most 131072 says of [0, 131073]; its contract lists values of the definition.
pub fn over_the_bound() -> Judgement
    ensures answer { result ≡ Unsure }
    ensures at { AtTheBound }
    ensures past { PastTheBound }
    ensures over { OverTheBound }
{
    judge_row(Bounds::AtMost(131072), between(0, 131073))
}
