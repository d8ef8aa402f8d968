//! Narrows the starting box of each sheet that `names.txt` names by each contractor, and prints what it answered.
//! The expected output was worked out by tools/reference.py, which was written apart from the proved code.

#![tactic(auto)]

use contractor::contractor::Contractor;
use contractor::layers::{Then, Until};
use contractor::solving::narrowed_by;
use line::piece::push_text;
use narrowing::pass::GaussSeidel;
use narrowing::test::RowTest;
use report::ranges::push_line;
use sheet::parts::{blank_row, blank_term};
use sheet::sheet::Sheet;
use sheet::system::System;
use sheet::variable::Variable;
use span::region::Region;
use std::alloc::{AllocError, Global};
use std::fs;
use std::io::Write;

// What one contractor answers.
fn push_answer<C: Contractor>(
    out: &mut Vec<u8>,
    name: &str,
    c: &C,
    system: &System,
    variables: &[Variable],
    b: &Region,
) -> Result<(), AllocError> {
    match narrowed_by(c, system, b) {
        Some(d) => push_line(out, name, variables, &d),
        None => {
            push_text(out, name)?;
            push_text(out, " NONE\n")
        }
    }
}

fn answers(alloc: Global, sheet: &Sheet) -> Result<Vec<u8>, AllocError> {
    let mut out = Vec::new(alloc);
    let Some(start) = sheet.start() else {
        return Ok(out);
    };
    let system = sheet.system();
    let variables = sheet.variables();
    push_answer(&mut out, "row test:", &RowTest, &system, variables, &start)?;
    push_answer(&mut out, "pass:", &GaussSeidel, &system, variables, &start)?;
    let both = Then {
        first: RowTest,
        second: GaussSeidel,
    };
    push_answer(&mut out, "then:", &both, &system, variables, &start)?;
    let again = Until {
        inner: both,
        most: 4,
    };
    push_answer(&mut out, "until:", &again, &system, variables, &start)?;
    Ok(out)
}

fn narrowings(alloc: Global, bytes: &[u8]) -> Result<Vec<u8>, AllocError> {
    // lent places live in the frame that lends them, so each program has its own
    let mut rows = [blank_row(); 64];
    let mut terms = [blank_term(); 64];
    let mut sheet = Sheet::over(&mut rows, &mut terms);
    let _ = sheet.read(bytes);
    answers(alloc, &sheet)
}

fn main(rt: HostRuntime) -> anyhow::Result<()> {
    let alloc = rt.alloc();
    // Three programs go over such a list. A call for all would take the runtime and the work, and promise nothing, as
    // `fs::read` does; these lines show what it would do.
    let names = fs::read_to_string(&rt, "names.txt")?;
    for name in names.lines() {
        let path = format!(in alloc; "{name}.sheet")?;
        let bytes = fs::read(&rt, path.as_str())?;
        let out = narrowings(alloc, bytes.as_slice())?;
        println!(rt; "== {name}")?;
        rt.stdout().write_all(out.as_slice())?;
    }
    Ok(())
}
