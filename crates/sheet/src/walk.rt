ghost use Rattle.format.specs.Reading.{read_content};
ghost use Rattle.sheet.specs.Walk.{ContentSays};

use crate::field::read_field;
use crate::gather::{Gathered, Progress};
use format::fault::SheetFault;

// Reads the sheet, field after field, to its end.
pub(crate) fn read_content(bytes: &[u8]) -> Result<Gathered, SheetFault>
    ensures { ContentSays result (read_content bytes.now) }
{
    let mut gathered = Gathered::new();
    let mut rest = bytes;
    // no iterator: how a field is cut depends on what was gathered before it
    'fields: loop {
        let place = bytes.len() - rest.len();
        let (field, after) = read_field(gathered.heading.variables.len(), place, rest)?;
        match gathered.take(field)? {
            Progress::More => rest = after,
            Progress::Done if after.is_empty() => return Ok(gathered),
            Progress::Done => return Err(SheetFault::Trailing(bytes.len() - after.len())),
        }
    }
}
