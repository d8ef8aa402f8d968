ghost use Rattle.std.specs.Prelude.{◌≡◌, ◌++◌, map, OnOk};
ghost use Rattle.format.specs.Reading.{variable_in, limits_in, term_in};
ghost use Rattle.sheet.specs.Held.{name_is};
ghost use Rattle.listing.specs.Listing.{name_byte, variable_words, row_words, power_words, powers_words, term_words};

use line::piece::{push_bytes, push_shown, push_text};
use sheet::content::{after, asked_in, count};
use sheet::variable::Name;
use std::alloc::AllocError;

// A byte of a name, or ? for one that a name cannot have.
fn shown(b: u8) -> u8
    ensures { result ≡ name_byte b }
{
    match b {
        b'A'..=b'Z' | b'0'..=b'9' => b,
        _ => b'?',
    }
}

fn push_name(line: &mut Vec<u8>, name: &[u8]) -> Result<(), AllocError>
    ensures { OnOk result (line.new.items ≡ line.old.items ++ map name_byte name.now) }
{
    for b in name {
        line.push(shown(*b))?;
    }
    Ok(())
}

pub(crate) fn push_variable(line: &mut Vec<u8>, content: &[u8]) -> Result<(), AllocError>
    ensures { OnOk result (line.new.items ≡ line.old.items ++ variable_words (variable_in content.now)) }
{
    let lo = count(content);
    let hi = count(after(content, 4));
    let nominal = count(after(content, 8));
    push_text(line, "variable ")?;
    push_name(line, after(content, 12))?;
    push_shown(line, format_args!(" from {lo} to {hi}, nominal {nominal}"))
}

pub(crate) fn push_row(line: &mut Vec<u8>, content: &[u8]) -> Result<(), AllocError>
    ensures { OnOk result (line.new.items ≡ line.old.items ++ row_words (limits_in content.now)) }
{
    match asked_in(content) {
        Some(asked) => push_shown(line, format_args!("row {asked}")),
        None => push_text(line, "row of no kind"),
    }
}

// The power of one variable; nothing where it does not occur.
fn push_power(line: &mut Vec<u8>, name: &Name, e: u8) -> Result<(), AllocError>
    ensures { OnOk result (line.new.items ≡ line.old.items ++ power_words (name_is name.now) e) }
{
    if e > 0 {
        push_text(line, " ")?;
        push_bytes(line, name.bytes())?;
    }
    if e > 1 {
        push_shown(line, format_args!("^{e}"))?;
    }
    Ok(())
}

// The powers of the variables with these names.
fn push_powers(line: &mut Vec<u8>, names: &[Name], exponents: &[u8]) -> Result<(), AllocError>
    ensures { OnOk result (line.new.items ≡ line.old.items ++ powers_words (map name_is names.now) exponents.now) }
{
    for (name, e) in names.iter().zip(exponents) {
        push_power(line, name, *e)?;
    }
    Ok(())
}

pub(crate) fn push_term(
    line: &mut Vec<u8>,
    names: &[Name],
    content: &[u8],
) -> Result<(), AllocError>
    ensures { OnOk result (line.new.items ≡ line.old.items ++ term_words (map name_is names.now) (term_in content.now)) }
{
    let coefficient = count(content);
    push_shown(line, format_args!("term {coefficient}"))?;
    push_powers(line, names, after(content, 4))
}
