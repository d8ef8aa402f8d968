//! Reads a sheet from standard input and prints each row's span and nominal over the starting box, with the sheet's nominals inside.

#![tactic(auto)]

use anyhow::anyhow;
use enclosure::shape::Marked;
use program::fault::ProgramFault;
use program::serve::serve;
use report::row::nominal_report;
use sheet::parts::{blank_row, blank_term};
use sheet::sheet::Sheet;
use std::alloc::{AllocError, Global};

// The rows of an accepted sheet.
fn rows_of(alloc: Global, sheet: &Sheet) -> Result<Vec<u8>, AllocError> {
    match sheet.start() {
        Some(start) => nominal_report(
            alloc,
            &sheet.system(),
            &Marked {
                region: &start,
                inside: sheet.nominals(),
            },
        ),
        None => Ok(Vec::new(alloc)),
    }
}

fn nominal(alloc: Global, bytes: &[u8]) -> Result<Vec<u8>, ProgramFault> {
    // lent places live in the frame that lends them, so each program has its own
    let mut rows = [blank_row(); 64];
    let mut terms = [blank_term(); 64];
    let mut sheet = Sheet::over(&mut rows, &mut terms);
    sheet.read(bytes)?;
    Ok(rows_of(alloc, &sheet)?)
}

fn main(rt: HostRuntime) -> anyhow::Result<()> {
    let answer = serve(rt.alloc(), &mut rt.stdin(), &mut rt.stdout(), nominal)?;
    answer.map_err(|_| anyhow!("the sheet is refused"))
}
