ghost use Rattle.std.specs.Prelude.{◌≡◌, ◌∷◌, ◌++◌, OnOk};
ghost use Rattle.listing.specs.Listing.{hexes, grouped};

use line::piece::{push_hex, push_text};
use std::alloc::AllocError;

// Bytes in hexadecimal.
pub(crate) fn push_hexes(line: &mut Vec<u8>, bytes: &[u8]) -> Result<(), AllocError>
    ensures { OnOk result (line.new.items ≡ line.old.items ++ hexes bytes.now) }
{
    for b in bytes {
        push_hex(line, *b)?;
    }
    Ok(())
}

// A group: a space and bytes in hexadecimal.
fn push_group(line: &mut Vec<u8>, bytes: &[u8]) -> Result<(), AllocError>
    ensures { OnOk result (line.new.items ≡ line.old.items ++ (32 ∷ hexes bytes.now)) }
{
    push_text(line, " ")?;
    push_hexes(line, bytes)
}

// Groups of these sizes, and what is left as the last one.
pub(crate) fn push_groups(
    line: &mut Vec<u8>,
    sizes: &[usize],
    bytes: &[u8],
) -> Result<(), AllocError>
    ensures { OnOk result (line.new.items ≡ line.old.items ++ grouped sizes.now bytes.now) }
{
    let mut rest = bytes;
    for size in sizes {
        let (group, more) = rest.split_at((*size).min(rest.len()));
        push_group(line, group)?;
        rest = more;
    }
    if rest.is_empty() {
        Ok(())
    } else {
        push_group(line, rest)
    }
}
