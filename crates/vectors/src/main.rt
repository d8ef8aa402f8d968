//! Reads every sheet that `names.txt` names and prints, for each, how it was read and each row over its starting box.
//! The expected output comes from programs written apart from this one (docs/VECTORS.md).

#![tactic(auto)]

use enclosure::shape::Marked;
use line::piece::push_bytes;
use line::refusal::write_refusal;
use listing::accepted::{Accepted, accepted_line};
use program::fault::refusal_of;
use report::row::nominal_report;
use sheet::parts::{blank_row, blank_term};
use sheet::sheet::Sheet;
use std::alloc::{AllocError, Global};
use std::fs;
use std::io::Write;

// What an accepted sheet has, and its rows.
fn accepted(alloc: Global, sheet: &Sheet, bytes: usize) -> Result<(Vec<u8>, Vec<u8>), AllocError> {
    let system = sheet.system();
    let line = accepted_line(alloc, Accepted::of(sheet, bytes))?;
    // as `nominal` has it: a call for both would take the sheet apart as these lines do
    match sheet.start() {
        Some(start) => Ok((
            line,
            nominal_report(
                alloc,
                &system,
                &Marked {
                    region: &start,
                    inside: sheet.nominals(),
                },
            )?,
        )),
        None => Ok((line, Vec::new(alloc))),
    }
}

// How a sheet was read. A refusal is written into a lent buffer, so that the gate sees such a call succeed.
fn told(alloc: Global, bytes: &[u8]) -> Result<(Vec<u8>, Vec<u8>), AllocError> {
    // lent places live in the frame that lends them, so each program has its own
    let mut rows = [blank_row(); 64];
    let mut terms = [blank_term(); 64];
    let mut sheet = Sheet::over(&mut rows, &mut terms);
    match sheet.read(bytes) {
        Err(fault) => {
            let mut buffer = [0; 64];
            // no such line is longer than the buffer, so only memory can be wanting
            let used = write_refusal(alloc, refusal_of(fault), &mut buffer).map_err(
                |_| AllocError,
            )?;
            let mut line = Vec::new(alloc);
            push_bytes(&mut line, &buffer[..used])?;
            Ok((line, Vec::new(alloc)))
        }
        Ok(()) => accepted(alloc, &sheet, bytes.len()),
    }
}

fn main(rt: HostRuntime) -> anyhow::Result<()> {
    let alloc = rt.alloc();
    // Three programs go over such a list. A call for all would take the runtime and the work, and promise nothing, as
    // `fs::read` does; these lines show what it would do.
    let names = fs::read_to_string(&rt, "names.txt")?;
    for name in names.lines() {
        let path = format!(in alloc; "{name}.sheet")?;
        let bytes = fs::read(&rt, path.as_str())?;
        let (line, rows) = told(alloc, bytes.as_slice())?;
        println!(rt; "== {name}")?;
        rt.stdout().write_all(line.as_slice())?;
        rt.stdout().write_all(b"\n")?;
        rt.stdout().write_all(rows.as_slice())?;
    }
    Ok(())
}
