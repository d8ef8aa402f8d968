ghost use Rattle.std.specs.Prelude.{IfOk};
ghost use Rattle.program.specs.Serving.{Served, Taken};

use crate::fault::{ProgramFault, fault_line};
use crate::intake::take_in;
use std::alloc::Global;
use std::io::{Read, Write};

/// Prints what `work` makes of the sheet from the input.
/// Where `work` gives a fault, the fault's line is printed, and the fault is the answer.
pub fn serve<R: Read, W: Write, F: FnOnce(Global, &[u8]) -> Result<Vec<u8>, ProgramFault>>(
    alloc: Global,
    input: &mut R,
    output: &mut W,
    work: F,
) -> anyhow::Result<Result<(), ProgramFault>>
    requires { F.IsAlwaysCallable work }
    ensures { IfOk result (λ answer. (sheet : _) × (made : _) × F.post work alloc sheet made
        × Taken 4097 (R.remaining input.old) (R.remaining input.new) sheet.now
        × Served (W.contents output.old) (W.contents output.new) made answer) }
{
    // one byte more than a sheet may have, so that a longer one is seen to be too long; an array, for memory is fixed
    let mut buffer = [0; 4097];
    let used = take_in(input, &mut buffer)?;
    let (text, answer) = match work(alloc, &buffer[..used]) {
        Ok(out) => (out, Ok(())),
        Err(fault) => (fault_line(alloc, fault)?, Err(fault)),
    };
    output.write_all(text.as_slice())?;
    Ok(answer)
}
