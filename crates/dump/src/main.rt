//! Lists a sheet from standard input for the file, and says whether it is accepted or how it is refused.

#![tactic(auto)]

use anyhow::anyhow;
use format::fault::SheetFault;
use line::piece::{push_bytes, push_text};
use listing::accepted::{Accepted, accepted_line};
use listing::field::field_line;
use program::fault::{ProgramFault, fault_line};
use program::intake::take_in;
use sheet::field::{Field, read_field};
use sheet::parts::{blank_row, blank_term};
use sheet::sheet::Sheet;
use sheet::variable::Name;
use std::alloc::{AllocError, Global};
use std::io::Write;

// A line for each field up to the place where the sheet is refused, or to its end.
fn fields(alloc: Global, bytes: &[u8], stop: usize) -> Result<Vec<u8>, AllocError> {
    let mut out = Vec::new(alloc);
    let mut names = Vec::new(alloc);
    let mut rest = bytes;
    // no iterator: it would count the variables a second time, for how a field is cut depends on them;
    // a field has a byte at least, so there are no more fields than bytes
    for _ in 0..bytes.len() {
        let place = bytes.len().saturating_sub(rest.len());
        let Ok((placed, after)) = read_field(names.len(), place, rest) else {
            break;
        };
        if place > stop {
            break;
        }
        let line = field_line(alloc, names.as_slice(), placed)?;
        push_bytes(&mut out, line.as_slice())?;
        push_text(&mut out, "\n")?;
        if let Field::Variable(content) = placed.field {
            if let Some(name) = Name::in_variable(content) {
                names.push(name)?;
            }
        }
        rest = after;
    }
    Ok(out)
}

// What an accepted sheet has.
fn push_accepted(out: &mut Vec<u8>, sheet: &Sheet, bytes: usize) -> Result<(), AllocError> {
    let line = accepted_line(*out.allocator(), Accepted::of(sheet, bytes))?;
    push_bytes(out, line.as_slice())?;
    push_text(out, "\n")
}

// The listing of a sheet, and the fault if it is refused.
// Not for `serve`, which prints the fault's line alone: here the listing up to the fault stands before it.
fn dump(alloc: Global, bytes: &[u8]) -> Result<(Vec<u8>, Result<(), ProgramFault>), AllocError> {
    // lent places live in the frame that lends them, so each program has its own
    let mut rows = [blank_row(); 64];
    let mut terms = [blank_term(); 64];
    let mut sheet = Sheet::over(&mut rows, &mut terms);
    match sheet.read(bytes) {
        Err(SheetFault::TooLong) => Ok((Vec::new(alloc), Err(SheetFault::TooLong.into()))),
        Err(fault) => Ok((fields(alloc, bytes, fault.place())?, Err(fault.into()))),
        Ok(()) => {
            let mut out = fields(alloc, bytes, bytes.len())?;
            push_accepted(&mut out, &sheet, bytes.len())?;
            Ok((out, Ok(())))
        }
    }
}

fn main(rt: HostRuntime) -> anyhow::Result<()> {
    // an array, for memory is fixed
    let mut buffer = [0; 4097];
    let used = take_in(&mut rt.stdin(), &mut buffer)?;
    let (out, read) = dump(rt.alloc(), &buffer[0..used])?;
    rt.stdout().write_all(out.as_slice())?;
    match read {
        Ok(()) => Ok(()),
        Err(fault) => {
            let line = fault_line(rt.alloc(), fault)?;
            rt.stdout().write_all(line.as_slice())?;
            Err(anyhow!("the sheet is refused"))
        }
    }
}
