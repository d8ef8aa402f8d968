ghost use Rattle.std.specs.Prelude.{◌≡◌, [], map, length, pos};
ghost use Rattle.span.specs.Regions.{nought, boxed};
ghost use Rattle.list.specs.Lists.{items, room};
ghost use Rattle.format.specs.Reading.{read_sheet};
ghost use Rattle.sheet.specs.Sheets.{SheetSays, Means, variables_of, span_of, nominal_of, filled, FilledBy};

use crate::few::Few;
use crate::heading::Heading;
use crate::shape::{Row, Term};
use crate::system::System;
use crate::variable::Variable;
use crate::walk::read_content;
use format::fault::SheetFault;
use list::lent::List;
use span::region::Region;
use span::shape::Span;

/// What the last accepted sheet says: its heading, its rows, and their terms in sheet order. Before one is accepted there is no variable and no row.
#[derive(Drop)]
pub struct Sheet<'a> {
    heading: Heading,
    rows: List<'a, Row>,
    terms: List<'a, Term>,
}

impl<'a> Sheet<'a> {
    /// A sheet that says nothing yet, over places for rows and terms.
    pub fn over(rows: &'a mut [Row], terms: &'a mut [Term]) -> Sheet<'a>
        ensures heading { variables_of result ≡ [] }
        ensures rows { (items result.rows ≡ []) × (room result.rows ≡ length rows.old) }
        ensures terms { (items result.terms ≡ []) × (room result.terms ≡ length terms.old) }
    {
        Sheet {
            heading: Heading::default(),
            rows: List::over(rows),
            terms: List::over(terms),
        }
    }

    /// Reads a sheet. An accepted one replaces what was there; a refused one leaves everything as it was.
    pub fn read(&mut self, bytes: &[u8]) -> Result<(), SheetFault>
        ensures says { SheetSays self.old self.new (read_sheet bytes.now (room self.old.rows) (room self.old.terms)) result }
        ensures exact { Means self.old self.new bytes.now result }
    {
        if bytes.len() > 4096 {
            return Err(SheetFault::TooLong);
        }
        let gathered = read_content(bytes)?;
        if gathered.rows.len() > self.rows.places() || gathered.terms.len() > self.terms.places() {
            return Err(SheetFault::NoRoom(bytes.len()));
        }
        // both have the places, so neither refuses
        let _ = self.rows.replace(gathered.rows.as_slice());
        let _ = self.terms.replace(gathered.terms.as_slice());
        self.heading = gathered.heading;
        Ok(())
    }

    /// The variables, in sheet order.
    pub fn variables(&self) -> &[Variable]
        ensures { result.now ≡ variables_of self.now }
    {
        self.heading.variables.as_slice()
    }

    /// The tolerance.
    pub fn tolerance(&self) -> u32
        ensures { result ≡ self.now.heading.tolerance }
    {
        self.heading.tolerance
    }

    /// The system of its rows.
    pub fn system(&self) -> System<'_>
        ensures n { result.n ≡ length (variables_of self.now) }
        ensures rows { result.rows.now ≡ items self.now.rows }
        ensures terms { result.terms.now ≡ items self.now.terms }
    {
        System {
            n: self.heading.variables.len(),
            rows: self.rows.items(),
            terms: self.terms.items(),
        }
    }

    /// The starting box: the variables' spans. None before a sheet is accepted.
    pub fn start(&self) -> Option<Region>
        ensures { result ≡ boxed (map span_of (variables_of self.now)) }
    {
        let variables = &self.heading.variables;
        let spans = filled(variables, Span { lo: 0, hi: 0 }, |v| v.span);
        Region::new(&spans[..variables.len()])
    }

    /// The variables' nominal counts, and 0 in the places of variables that are not there.
    pub fn nominals(&self) -> [i32; 8]
        ensures { result ≡ filled (pos 0) (map nominal_of (variables_of self.now)) }
    {
        filled(&self.heading.variables, 0, |v| v.nominal)
    }
}

// What `part` takes from each variable, in the first of eight places, and `spare` in the others.
fn filled<T: Copy, F: Fn(&Variable) -> T>(variables: &Few<Variable, 8>, spare: T, part: F) -> [T; 8]
    requires { F.IsAlwaysCallable part }
    ensures { FilledBy (F.post part) spare variables.now.items result }
{
    let mut all = [spare; 8];
    // the index is the variable's number, which is its place
    for (i, v) in variables.as_slice().iter().enumerate() {
        all[i] = part(v);
    }
    all
}
