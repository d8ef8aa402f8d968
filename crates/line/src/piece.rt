ghost use Rattle.std.specs.Prelude.{◌≡◌, ◌<◌, true, decimal, IfSome};
ghost use Rattle.std.specs.Fmt.{signed_decimal, digit_glyph};
ghost use Rattle.line.specs.Lines.{appended, hexadecimal, padding};

use std::alloc::AllocError;
use std::fmt;

/// The text at the end of the line. Where there is no memory the line stays as it was, here and below.
pub fn push_text(line: &mut Vec<u8>, text: &str) -> Result<(), AllocError>
    ensures { line.new.items ≡ appended result line.old.items text.now }
{
    line.extend_from_slice(text.as_bytes())
}

/// Bytes as they are, as those of a name.
pub fn push_bytes(line: &mut Vec<u8>, bytes: &[u8]) -> Result<(), AllocError>
    ensures { line.new.items ≡ appended result line.old.items bytes.now }
{
    line.extend_from_slice(bytes)
}

/// What a value shows: a number in decimal, a minus before one below 0.
pub fn push_shown<T: fmt::Display + Drop>(line: &mut Vec<u8>, x: T) -> Result<(), AllocError>
    ensures { IfSome (T.Display.output x) (λ text. line.new.items ≡ appended result line.old.items text) }
{
    let shown = format!(in *line.allocator(); "{x}")?;
    line.extend_from_slice(shown.as_bytes())
}

/// A number in decimal, a minus before one below 0.
pub fn push_number(line: &mut Vec<u8>, z: i64) -> Result<(), AllocError>
    ensures { line.new.items ≡ appended result line.old.items (signed_decimal z) }
{
    push_shown(line, z)
}

/// A number of things in decimal.
pub fn push_count(line: &mut Vec<u8>, n: usize) -> Result<(), AllocError>
    ensures { line.new.items ≡ appended result line.old.items (decimal n) }
{
    push_shown(line, n)
}

fn hex_digit(d: u8) -> u8
    requires { d < 16 }
    ensures { result ≡ digit_glyph true d }
{
    if d < 10 { 48 + d } else { 55 + d }
}

/// A byte as two hexadecimal digits.
// By hand and not `{byte:02X}`: each byte of a listed sheet comes here, and a text of its own for each took four times as long.
pub fn push_hex(line: &mut Vec<u8>, byte: u8) -> Result<(), AllocError>
    ensures { line.new.items ≡ appended result line.old.items (hexadecimal byte) }
{
    let digits = [hex_digit(byte / 16), hex_digit(byte % 16)];
    line.extend_from_slice(&digits)
}

/// Spaces until the line has so many bytes; a line that has them already stays as it is.
pub fn pad_to(line: &mut Vec<u8>, column: usize) -> Result<(), AllocError>
    ensures { line.new.items ≡ appended result line.old.items (padding column line.old.items) }
{
    let width = line.len().max(column);
    line.resize(width, b' ')
}
