ghost use Rattle.std.specs.Prelude.{◌≡◌, IfOk, IfSome};
ghost use Rattle.line.specs.Lines.{Written};

use crate::fault::LineFault;
use list::lent::copy_to_front;
use std::alloc::{AllocError, Global};
use std::fmt;

/// The line that a value shows.
pub fn line_of<T: fmt::Display + Drop>(alloc: Global, x: T) -> Result<Vec<u8>, AllocError>
    ensures { IfSome (T.Display.output x) (λ text. IfOk result (λ s. s.items ≡ text)) }
{
    let text = x.to_string(alloc)?;
    Ok(text.into_bytes())
}

/// Copies the line to the front of the buffer and answers its length; the rest of the buffer stays.
/// A line longer than the buffer is refused, and the buffer stays as it was.
// The buffer is lent, as all memory of a report is that the caller keeps.
pub fn lend(line: &[u8], buffer: &mut [u8]) -> Result<usize, LineFault>
    ensures { Written line.now buffer.old result buffer.new }
{
    copy_to_front(buffer, line)?;
    Ok(line.len())
}

/// Writes the line that a value shows into the buffer.
pub fn write_shown<T: fmt::Display + Drop>(
    alloc: Global,
    x: T,
    buffer: &mut [u8],
) -> Result<usize, LineFault>
    ensures { IfSome (T.Display.output x) (λ text. Written text buffer.old result buffer.new) }
{
    let line = line_of(alloc, x)?;
    lend(line.as_slice(), buffer)
}
