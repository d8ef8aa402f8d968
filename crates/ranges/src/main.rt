//! Reads a sheet from standard input and sorts its starting box: feasible boxes, where every frame passes, undecided ones, and what is left.

#![tactic(auto)]

use anyhow::anyhow;
use program::fault::{ProgramFault, RunFault};
use program::serve::serve;
use sheet::parts::{blank_row, blank_term};
use sheet::sheet::Sheet;
use sorting::sorted::sorted;
use std::alloc::Global;

fn ranges(alloc: Global, bytes: &[u8]) -> Result<Vec<u8>, ProgramFault> {
    // lent places live in the frame that lends them, so each program has its own
    let mut rows = [blank_row(); 64];
    let mut terms = [blank_term(); 64];
    let mut sheet = Sheet::over(&mut rows, &mut terms);
    sheet.read(bytes)?;
    let report = sorted(alloc, &sheet)?;
    Ok(report.ok_or(RunFault::NotOpened)?)
}

fn main(rt: HostRuntime) -> anyhow::Result<()> {
    let answer = serve(rt.alloc(), &mut rt.stdin(), &mut rt.stdout(), ranges)?;
    answer.map_err(|_| anyhow!("the sheet is refused"))
}
