ghost use Rattle.std.specs.Prelude.{◌≡◌, drop, Some, option_map, slice_index};
ghost use Rattle.format.specs.Reading.{number_in, count_in, limits_in};
ghost use Rattle.sheet.specs.Held.{asked_is};
ghost use Rattle.sheet.specs.Words.{asked_words};

use std::fmt;

// The byte at place i, and 0 past the end.
fn byte(bytes: &[u8], i: usize) -> u8
    ensures { result ≡ slice_index bytes.now i }
{
    bytes.get(i).copied().unwrap_or(0)
}

/// What stands behind the first k bytes.
pub fn after(bytes: &[u8], k: usize) -> &[u8]
    ensures { result.now ≡ drop k bytes.now }
{
    bytes.get(k..).unwrap_or(&[])
}

/// The number in the first four bytes, high byte first. A byte that is not there counts as 0.
pub fn number(bytes: &[u8]) -> u32
    ensures { result ≡ number_in bytes.now }
{
    u32::from_be_bytes([
        byte(bytes, 0),
        byte(bytes, 1),
        byte(bytes, 2),
        byte(bytes, 3),
    ])
}

/// The same, signed.
pub fn count(bytes: &[u8]) -> i32
    ensures { result ≡ count_in bytes.now }
{
    number(bytes).cast_signed()
}

/// What a row asks, in range or not.
#[derive(Clone, Copy, Debug, PartialEq, Eq)]
pub enum Asked {
    AtLeast(i32),
    AtMost(i32),
    Between(i32, i32),
}

impl fmt::Display for Asked {
    ghost output = { λ a. Some (asked_words (asked_is a)) };

    fn fmt<W: fmt::Write>(&self, f: &mut fmt::Formatter<W>) -> fmt::Result {
        match self {
            Asked::AtLeast(lo) => write!(f, "at least {lo}"),
            Asked::AtMost(hi) => write!(f, "at most {hi}"),
            Asked::Between(lo, hi) => write!(f, "between {lo} and {hi}"),
        }
    }
}

/// What the content of a row asks, by the kind byte and the counts behind it; none where that byte and the length make no kind of row.
pub fn asked_in(content: &[u8]) -> Option<Asked>
    ensures { option_map asked_is result ≡ limits_in content.now }
{
    let first = count(after(content, 1));
    // the kind bytes stand here alone: this match is the conversion
    match (byte(content, 0), content.len()) {
        (1, 5) => Some(Asked::AtLeast(first)),
        (2, 5) => Some(Asked::AtMost(first)),
        (_, 5) => None,
        (3, _) => Some(Asked::Between(first, count(after(content, 5)))),
        _ => None,
    }
}
