ghost use Rattle.std.specs.Prelude.{◌≡◌, length, IfOk, Some};
ghost use Rattle.line.specs.Lines.{Written};
ghost use Rattle.list.specs.Lists.{items};
ghost use Rattle.sheet.specs.Sheets.{variables_of};
ghost use Rattle.listing.specs.Listing.{accepted_line};

use line::fault::LineFault;
use line::lend::{line_of, write_shown};
use sheet::sheet::Sheet;
use std::alloc::{AllocError, Global};
use std::fmt;

/// What an accepted sheet has.
#[derive(Clone, Copy, Debug, PartialEq, Eq)]
pub struct Accepted {
    pub variables: usize,
    pub rows: usize,
    pub terms: usize,
    pub bytes: usize,
}

impl Accepted {
    /// What a sheet that was read from this many bytes has.
    pub fn of(sheet: &Sheet, bytes: usize) -> Accepted
        ensures variables { result.variables ≡ length (variables_of sheet.now) }
        ensures rows { result.rows ≡ length (items sheet.now.rows) }
        ensures terms { result.terms ≡ length (items sheet.now.terms) }
        ensures bytes { result.bytes ≡ bytes }
    {
        let system = sheet.system();
        Accepted {
            variables: system.n(),
            rows: system.rows().len(),
            terms: system.terms().len(),
            bytes,
        }
    }
}

impl fmt::Display for Accepted {
    ghost output = { λ a. Some (accepted_line a.variables a.rows a.terms a.bytes) };

    fn fmt<W: fmt::Write>(&self, f: &mut fmt::Formatter<W>) -> fmt::Result {
        let Accepted {
            variables,
            rows,
            terms,
            bytes,
        } = self;
        write!(
            f,
            "ACCEPTED VARIABLES {variables} ROWS {rows} TERMS {terms} BYTES {bytes}"
        )
    }
}

/// The line that says so.
pub fn accepted_line(alloc: Global, accepted: Accepted) -> Result<Vec<u8>, AllocError>
    ensures { IfOk result (λ s. s.items ≡ accepted_line accepted.variables accepted.rows accepted.terms accepted.bytes) }
{
    line_of(alloc, accepted)
}

/// Writes that line into the buffer.
pub fn write_accepted(
    alloc: Global,
    accepted: Accepted,
    buffer: &mut [u8],
) -> Result<usize, LineFault>
    ensures { Written (accepted_line accepted.variables accepted.rows accepted.terms accepted.bytes) buffer.old result buffer.new }
{
    write_shown(alloc, accepted, buffer)
}
