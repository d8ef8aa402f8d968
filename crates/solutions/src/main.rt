//! Solves every sheet that `names.txt` names, as `ranges` does, and prints the reports one after another.
//! The expected output comes from programs written apart from this one (docs/VECTORS.md).

#![tactic(auto)]

use sheet::parts::{blank_row, blank_term};
use sheet::sheet::Sheet;
use sorting::sorted::sorted;
use std::alloc::{AllocError, Global};
use std::fs;
use std::io::Write;

fn solution(alloc: Global, bytes: &[u8]) -> Result<Vec<u8>, AllocError> {
    // lent places live in the frame that lends them, so each program has its own
    let mut rows = [blank_row(); 64];
    let mut terms = [blank_term(); 64];
    let mut sheet = Sheet::over(&mut rows, &mut terms);
    let _ = sheet.read(bytes);
    Ok(sorted(alloc, &sheet)?.unwrap_or(Vec::new(alloc)))
}

fn main(rt: HostRuntime) -> anyhow::Result<()> {
    let alloc = rt.alloc();
    // Three programs go over such a list. A call for all would take the runtime and the work, and promise nothing, as
    // `fs::read` does; these lines show what it would do.
    let names = fs::read_to_string(&rt, "names.txt")?;
    for name in names.lines() {
        let path = format!(in alloc; "{name}.sheet")?;
        let bytes = fs::read(&rt, path.as_str())?;
        let report = solution(alloc, bytes.as_slice())?;
        println!(rt; "== {name}")?;
        rt.stdout().write_all(report.as_slice())?;
    }
    Ok(())
}
