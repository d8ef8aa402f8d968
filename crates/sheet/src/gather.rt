ghost use Rattle.std.specs.Prelude.{◌≡◌, ◌≤◌, true, ◌⊎◌, List, [], length};
ghost use Rattle.numbers.specs.Rows.{Term as GivenTerm};
ghost use Rattle.format.specs.Content.{GivenVariable, GivenRow, Limits};
ghost use Rattle.format.specs.Fields.{right_length};
ghost use Rattle.format.specs.Reading.{Draft, start, step, add_variable, set_tolerance, add_row, add_term, variable_in, number_in, limits_in, term_in};
ghost use Rattle.sheet.specs.Says.{kind_is, content_is};
ghost use Rattle.sheet.specs.declared.gather.State.TheVariants.{Variables, Tolerance, Row as AtRow, Terms};
ghost use Rattle.sheet.specs.Gathering.{follows, Held, Open, Goes, HeldOpen, Holds, Drafted, Takes};

use crate::content::number;
use crate::decode::{bounds, name_taken, term, variable};
use crate::field::{Field, Placed};
use crate::heading::Heading;
use crate::shape::{Row, Term};
use arrayvec::ArrayVec;
use format::fault::SheetFault;

// What was read last.
#[derive(Clone, Copy, Debug, PartialEq, Eq)]
pub enum State {
    Start,
    Variables,
    Tolerance,
    Row,
    Terms,
}

// What has been read so far. The last row counts those of its terms that were read.
#[derive(Drop)]
pub struct Gathered {
    pub state: State,
    pub heading: Heading,
    pub rows: ArrayVec<Row, 16>,
    pub terms: ArrayVec<Term, 192>,
}

// Whether the sheet goes on after a field, or is at its end.
#[derive(Clone, Copy, Debug, PartialEq, Eq)]
pub enum Progress {
    More,
    Done,
}

// What may follow: the next state, or none.
fn next(state: State, field: Field) -> Option<State>
    ensures { result ≡ follows state (kind_is field.entry) }
{
    match (state, field) {
        (State::Start | State::Variables, Field::Variable(_)) => Some(State::Variables),
        (State::Variables, Field::Tolerance(_)) => Some(State::Tolerance),
        (State::Tolerance | State::Terms, Field::Row(_)) => Some(State::Row),
        (State::Row | State::Terms, Field::Term(_)) => Some(State::Terms),
        (State::Terms, Field::End) => Some(State::Terms),
        _ => None,
    }
}

impl Gathered {
    // Nothing gathered yet.
    pub(crate) fn new() -> Gathered
        ensures { Holds result start }
    {
        Gathered {
            state: State::Start,
            heading: Heading::default(),
            rows: ArrayVec::new(),
            terms: ArrayVec::new(),
        }
    }

    // Here and in the three calls below, the place and the bytes are what `take` has matched of a field.
    fn add_variable(&mut self, place: usize, bytes: &[u8]) -> Result<(), SheetFault>
        requires length { (13 ≤ length bytes.now) × (length bytes.now ≤ 20) }
        requires state { self.old.state ≡ Variables }
        ensures { (vs : List GivenVariable) → Held self.old vs [] → Goes result self.new (add_variable vs place (variable_in bytes.now)) }
    {
        let variables = &mut self.heading.variables;
        if variables.is_full() {
            return Err(SheetFault::TooMany(place));
        }
        let v = variable(bytes).ok_or(SheetFault::OutOfRange(place))?;
        if name_taken(&v.name, variables.as_slice()) {
            return Err(SheetFault::NameTaken(place));
        }
        variables.push(v);
        Ok(())
    }

    fn set_tolerance(&mut self, place: usize, bytes: &[u8]) -> Result<(), SheetFault>
        requires length { 4 ≤ length bytes.now }
        requires state { self.old.state ≡ Tolerance }
        ensures { (vs : List GivenVariable) → Held self.old vs [] → Goes result self.new (set_tolerance vs place (number_in bytes.now)) }
    {
        let t = number(bytes);
        if !(1..=2147483647).contains(&t) {
            return Err(SheetFault::OutOfRange(place));
        }
        self.heading.tolerance = t;
        Ok(())
    }

    fn add_row(&mut self, place: usize, bytes: &[u8]) -> Result<(), SheetFault>
        requires state { self.old.state ≡ AtRow }
        ensures { (vs : List GivenVariable) (rs : List GivenRow) → Held self.old vs rs → Goes result self.new (add_row vs self.old.heading.tolerance rs place (limits_in bytes.now)) }
    {
        if self.rows.is_full() {
            return Err(SheetFault::TooMany(place));
        }
        let bounds = bounds(bytes).ok_or(SheetFault::OutOfRange(place))?;
        self.rows.push(Row { bounds, own: 0 });
        Ok(())
    }

    // A term of the last row.
    fn add_term(&mut self, place: usize, bytes: &[u8]) -> Result<(), SheetFault>
        requires length { (4 ≤ length bytes.now) × (length bytes.now ≤ 12) }
        requires state { self.old.state ≡ Terms }
        requires row { Open self.old }
        ensures { (vs : List GivenVariable) (rs : List GivenRow) (k : Limits) (ts : List GivenTerm) → HeldOpen self.old vs rs k ts → Goes result self.new (add_term vs self.old.heading.tolerance rs k ts place (term_in bytes.now)) }
    {
        // a term comes behind a row, so there is a last one
        let last = self.rows.len() - 1;
        if self.rows[last].own >= 12 {
            return Err(SheetFault::TooMany(place));
        }
        let t = term(bytes).ok_or(SheetFault::OutOfRange(place))?;
        self.terms.push(t);
        self.rows[last].own += 1;
        Ok(())
    }

    // Takes a field into what was gathered.
    pub(crate) fn take(&mut self, placed: Placed) -> Result<Progress, SheetFault>
        requires drafted { Drafted self.old }
        requires length { right_length (length self.old.heading.variables.items) (kind_is placed.field) (length (content_is placed.field)) ≡ true }
        ensures { (d : Draft) → Holds self.old d → Takes result self.new (step d placed.entry.place (kind_is placed.entry.field) (content_is placed.entry.field)) }
    {
        let Placed { place, field } = placed;
        self.state = next(self.state, field).ok_or(SheetFault::NotAllowed(place))?;
        match field {
            Field::Variable(bytes) => self.add_variable(place, bytes)?,
            Field::Tolerance(bytes) => self.set_tolerance(place, bytes)?,
            Field::Row(bytes) => self.add_row(place, bytes)?,
            Field::Term(bytes) => self.add_term(place, bytes)?,
            Field::End => return Ok(Progress::Done),
        }
        Ok(Progress::More)
    }
}
