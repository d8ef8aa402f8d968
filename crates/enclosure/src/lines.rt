ghost use Rattle.std.specs.Prelude.{◌≡◌, take, drop};
ghost use Rattle.std.specs.Iterator.{YieldsFirstBy, item_count};
ghost use Rattle.enclosure.specs.Lines.{told, left};

use sheet::shape::{Bounds, Row, Term};
use sheet::system::System;

/// A row with its terms.
#[derive(Clone, Copy)]
pub struct Line<'s> {
    pub bounds: Bounds,
    pub terms: &'s [Term],
}

/// The rows of a system, each with its own part of the terms, in sheet order.
#[derive(Drop)]
pub struct Lines<'s> {
    rows: &'s [Row],
    terms: &'s [Term],
}

impl<'s> Lines<'s> {
    /// The rows of a system.
    pub fn of(system: &System<'s>) -> Lines<'s>
        ensures rows { result.rows.now ≡ system.now.rows.now }
        ensures terms { result.terms.now ≡ system.now.terms.now }
    {
        Lines {
            rows: system.rows(),
            terms: system.terms(),
        }
    }
}

/// The first terms of those that are left, as many as a row has of its own, and the terms behind them.
pub fn parted<'s>(own: usize, rest: &'s [Term]) -> (&'s [Term], &'s [Term])
    ensures own { result.0.now ≡ take own rest.now }
    ensures more { result.1.now ≡ drop own rest.now }
{
    rest.split_at(own.min(rest.len()))
}

impl<'s> Iterator for Lines<'s> {
    type Item = Line<'s>;

    ghost next_gives = { YieldsFirstBy told left };

    ghost remaining = { item_count left };

    fn next(&mut self) -> Option<Line<'s>> {
        let (row, rows) = self.rows.split_first()?;
        let (own, more) = parted(row.own, self.terms);
        self.rows = rows;
        self.terms = more;
        Some(Line {
            bounds: row.bounds,
            terms: own,
        })
    }
}
