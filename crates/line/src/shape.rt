ghost use Rattle.std.specs.Prelude.{Some};
ghost use Rattle.line.specs.Refusals.{reader, refusal_line};

use std::fmt;

/// The reader that refused a sheet.
#[derive(Clone, Copy, Debug, PartialEq, Eq)]
pub enum Reader {
    Field,
    Sheet,
}

impl fmt::Display for Reader {
    ghost output = { λ r. Some (reader r) };

    fn fmt<W: fmt::Write>(&self, f: &mut fmt::Formatter<W>) -> fmt::Result {
        f.write_str(match self {
            Reader::Field => "FIELD",
            Reader::Sheet => "SHEET",
        })
    }
}

/// A refused sheet: the refusal's number, the place it is given for, and the reader that gave it.
#[derive(Clone, Copy, Debug, PartialEq, Eq)]
pub struct Refusal {
    // the number and not the fault: the faults of several crates end in such a line
    pub number: usize,
    pub place: usize,
    pub reader: Reader,
}

impl fmt::Display for Refusal {
    ghost output = { λ r. Some (refusal_line r) };

    fn fmt<W: fmt::Write>(&self, f: &mut fmt::Formatter<W>) -> fmt::Result {
        let Refusal {
            number,
            place,
            reader,
        } = self;
        write!(f, "REFUSED {number} AT {place} IN {reader}")
    }
}
