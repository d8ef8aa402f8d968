ghost use Rattle.std.specs.Prelude.{◌≡◌, IfOk};
ghost use Rattle.line.specs.Lines.{Written};
ghost use Rattle.report.specs.Rows.{row_line, nominal_report};

use enclosure::evaluate::row;
use enclosure::shape::{Marked, NominalReach, NominalSpan};
use line::fault::LineFault;
use line::lend::lend;
use line::piece::{push_bytes, push_text};
use sheet::system::System;
use span::shape::Reach;
use std::alloc::{AllocError, Global};

/// The line of a row with this number: its span and its nominal, or OPEN.
pub fn row_line(alloc: Global, i: usize, row: NominalReach) -> Result<Vec<u8>, AllocError>
    ensures { IfOk result (λ s. s.items ≡ row_line i row) }
{
    let text = match row {
        Reach::Open => format!(in alloc; "R {i} OPEN")?,
        Reach::Closed(NominalSpan { span, nominal }) => format!(in alloc;
            "R {i} {span} {nominal}"
        )?,
    };
    Ok(text.into_bytes())
}

/// Writes that line into the buffer.
pub fn write_row(
    alloc: Global,
    i: usize,
    row: NominalReach,
    buffer: &mut [u8],
) -> Result<usize, LineFault>
    ensures { Written (row_line i row) buffer.old result buffer.new }
{
    let line = row_line(alloc, i, row)?;
    lend(line.as_slice(), buffer)
}

/// The lines of all rows of a system over a marked box.
pub fn nominal_report(alloc: Global, system: &System, m: &Marked) -> Result<Vec<u8>, AllocError>
    ensures { IfOk result (λ s. s.items ≡ nominal_report system.now m.now.region.now m.now.inside) }
{
    let rows = system.rows().len();
    let mut out = Vec::new(alloc);
    // the index is the row's number, by which the row is worked out and which the line tells
    for i in 0..rows {
        let line = row_line(alloc, i + 1, row::<NominalReach>(system, i, m))?;
        push_bytes(&mut out, line.as_slice())?;
        push_text(&mut out, "\n")?;
    }
    Ok(out)
}
