ghost use Rattle.std.specs.Prelude.{◌≡◌, ◌++◌, map, IfOk, OnOk};
ghost use Rattle.line.specs.Lines.{Written};
ghost use Rattle.sheet.specs.Held.{name_is};
ghost use Rattle.sheet.specs.Says.{kind_is, content_is};
ghost use Rattle.listing.specs.Listing.{part_bytes, field_bytes, tolerance_words, words, field_line};

use crate::bytes::{push_groups, push_hexes};
use crate::words::{push_row, push_term, push_variable};
use line::fault::LineFault;
use line::lend::lend;
use line::piece::{pad_to, push_count, push_shown, push_text};
use sheet::content::number;
use sheet::field::{Field, Placed};
use sheet::variable::Name;
use std::alloc::{AllocError, Global};

// The tag, the length and the content in hexadecimal, in groups of these sizes.
fn push_part(line: &mut Vec<u8>, tag: u8, sizes: &[usize], content: &[u8]) -> Result<(), AllocError>
    ensures { OnOk result (line.new.items ≡ line.old.items ++ part_bytes tag sizes.now content.now) }
{
    let [.., high, low] = content.len().to_be_bytes();
    push_hexes(line, &[tag])?;
    push_text(line, " ")?;
    push_hexes(line, &[high, low])?;
    push_groups(line, sizes, content)
}

fn push_bytes_of(line: &mut Vec<u8>, field: Field) -> Result<(), AllocError>
    ensures { OnOk result (line.new.items ≡ line.old.items ++ field_bytes (kind_is field.entry) (content_is field.entry)) }
{
    let tag = field.tag() as u8;
    match field {
        Field::Variable(content) => push_part(line, tag, &[4, 4, 4], content),
        Field::Tolerance(content) => push_part(line, tag, &[4], content),
        Field::Row(content) => push_part(line, tag, &[1, 4], content),
        Field::Term(content) => push_part(line, tag, &[4], content),
        Field::End => push_part(line, tag, &[], &[]),
    }
}

fn push_words(line: &mut Vec<u8>, names: &[Name], field: Field) -> Result<(), AllocError>
    ensures { OnOk result (line.new.items ≡ line.old.items ++ words (map name_is names.now) (kind_is field.entry) (content_is field.entry)) }
{
    match field {
        Field::Variable(content) => push_variable(line, content),
        Field::Tolerance(content) => push_tolerance(line, content),
        Field::Row(content) => push_row(line, content),
        Field::Term(content) => push_term(line, names, content),
        Field::End => push_text(line, "end"),
    }
}

fn push_tolerance(line: &mut Vec<u8>, content: &[u8]) -> Result<(), AllocError>
    ensures { OnOk result (line.new.items ≡ line.old.items ++ tolerance_words content.now) }
{
    let tolerance = number(content);
    push_shown(line, format_args!("tolerance {tolerance}"))
}

/// The line that lists a field: its place, its bytes in hexadecimal as they are meant, and what they say in words.
/// The names are those of the variables before it.
pub fn field_line(alloc: Global, names: &[Name], placed: Placed) -> Result<Vec<u8>, AllocError>
    ensures { IfOk result (λ s. s.items ≡ field_line (map name_is names.now) placed.entry.place (kind_is placed.entry.field) (content_is placed.entry.field)) }
{
    let Placed { place, field } = placed;
    let mut line = Vec::new(alloc);
    push_count(&mut line, place)?;
    pad_to(&mut line, 6)?;
    push_bytes_of(&mut line, field)?;
    pad_to(&mut line, 60)?;
    push_words(&mut line, names, field)?;
    Ok(line)
}

/// Writes that line into the buffer.
pub fn write_field(
    alloc: Global,
    names: &[Name],
    placed: Placed,
    buffer: &mut [u8],
) -> Result<usize, LineFault>
    ensures { Written (field_line (map name_is names.now) placed.entry.place (kind_is placed.entry.field) (content_is placed.entry.field)) buffer.old result buffer.new }
{
    let line = field_line(alloc, names, placed)?;
    lend(line.as_slice(), buffer)
}
