ghost use Rattle.std.specs.Prelude.{◌≡◌, IfOk};
ghost use Rattle.line.specs.Lines.{Written};
ghost use Rattle.line.specs.Refusals.{refusal_line};

use crate::fault::LineFault;
use crate::lend::{line_of, write_shown};
use crate::shape::Refusal;
use std::alloc::{AllocError, Global};

/// The line that tells a refused sheet.
pub fn refusal_line(alloc: Global, refusal: Refusal) -> Result<Vec<u8>, AllocError>
    ensures { IfOk result (λ s. s.items ≡ refusal_line refusal) }
{
    line_of(alloc, refusal)
}

/// Writes that line into the buffer.
pub fn write_refusal(alloc: Global, refusal: Refusal, buffer: &mut [u8]) -> Result<usize, LineFault>
    ensures { Written (refusal_line refusal) buffer.old result buffer.new }
{
    write_shown(alloc, refusal, buffer)
}
