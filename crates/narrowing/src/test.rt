ghost use Rattle.narrowing.specs.Tests.{row_test};
ghost use Rattle.narrowing.specs.PassLaws.{row_test_laws};

use contractor::contractor::Contractor;
use enclosure::evaluate::total;
use enclosure::judge::judge_row;
use enclosure::lines::Lines;
use enclosure::shape::{Judgement, Marked};
use sheet::system::System;
use span::region::Region;
use span::shape::Reach;

/// The row test: none if the plain spans call a row broken, otherwise the box.
#[derive(Clone, Copy, Debug)]
pub struct RowTest;

impl Contractor for RowTest {
    ghost narrowed = { λ _. row_test };

    ghost laws = { λ _. row_test_laws };

    fn narrow(&self, system: &System, b: &Region) -> Option<Region> {
        let n = system.n();
        let m = Marked::unmarked(b);
        for line in Lines::of(system) {
            let whole = total::<Reach>(n, line.terms, &m);
            if let Judgement::Broken = judge_row(line.bounds, whole) {
                return None;
            }
        }
        Some(*b)
    }
}
