ghost use Rattle.std.specs.Prelude.{◌≤◌, length, take, IfOk};
ghost use Rattle.program.specs.Serving.{Taken};

use std::io;
use std::io::Read;

/// Fills the buffer from the input, up to the buffer's or the input's end, and answers how many bytes came.
pub fn take_in<R: Read>(input: &mut R, buffer: &mut [u8]) -> io::Result<usize>
    ensures within { IfOk result (λ n. n ≤ length buffer.old) }
    ensures taken { IfOk result (λ n. Taken (length buffer.old) (R.remaining input.old) (R.remaining input.new) (take n buffer.new)) }
{
    let mut used = 0;
    // no iterator: only the input says how far a read comes
    while used < buffer.len() {
        match input.read(&mut buffer[used..])? {
            0 => break,
            got => used += got,
        }
    }
    Ok(used)
}
