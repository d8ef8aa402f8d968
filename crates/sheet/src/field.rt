ghost use Rattle.std.specs.Prelude.{◌≡◌, ◌++◌, ℕ, List, Some, codes, decimal, IfOk};
ghost use Rattle.format.specs.Fields.{read_field, kinded, kind_of};
ghost use Rattle.sheet.specs.Says.{kind_is, tag_kind, TagOf, cut_says, sort_says};

use format::fault::FieldFault;
use std::error::Error;
use std::fmt;

/// The byte in front of a field, which says what kind of field it is.
#[derive(Clone, Copy, Debug, PartialEq, Eq)]
pub enum Tag {
    Variable = 1,
    Row = 2,
    Term = 3,
    Tolerance = 4,
    End = 9,
}

/// A byte that is no field's tag.
#[derive(Clone, Copy, Debug, PartialEq, Eq)]
pub struct UnknownTag(pub u8);

impl TryFrom<u8> for Tag {
    type Error = UnknownTag;

    ghost try_from_gives = { TagOf };

    fn try_from(byte: u8) -> Result<Tag, UnknownTag> {
        match byte {
            1 => Ok(Tag::Variable),
            2 => Ok(Tag::Row),
            3 => Ok(Tag::Term),
            4 => Ok(Tag::Tolerance),
            9 => Ok(Tag::End),
            _ => Err(UnknownTag(byte)),
        }
    }
}

impl fmt::Display for UnknownTag {
    ghost output = { λ e. Some (codes "no kind of field has the tag " ++ decimal e.0) };

    fn fmt<W: fmt::Write>(&self, f: &mut fmt::Formatter<W>) -> fmt::Result {
        write!(f, "no kind of field has the tag {}", self.0)
    }
}

impl Error for UnknownTag {}

/// A field: what stands behind its tag and length, as a part of the sheet.
#[derive(Clone, Copy, Debug, PartialEq, Eq)]
pub enum Field<'a> {
    Variable(&'a [u8]),
    Tolerance(&'a [u8]),
    Row(&'a [u8]),
    Term(&'a [u8]),
    End,
}

impl<'a> Field<'a> {
    /// The tag that stands in front of it.
    pub fn tag(&self) -> Tag
        ensures { tag_kind result ≡ kind_is self.now }
    {
        match self {
            Field::Variable(_) => Tag::Variable,
            Field::Tolerance(_) => Tag::Tolerance,
            Field::Row(_) => Tag::Row,
            Field::Term(_) => Tag::Term,
            Field::End => Tag::End,
        }
    }
}

/// A field with its place, the offset of its first byte.
#[derive(Clone, Copy, Debug, PartialEq, Eq)]
pub struct Placed<'a> {
    pub place: usize,
    pub field: Field<'a>,
}

// The field with this tag and content, where n variables were read before it.
fn sort<'a>(n: usize, place: usize, tag: u8, content: &'a [u8]) -> Result<Field<'a>, FieldFault>
    ensures { (rest : List ℕ) → sort_says result rest ≡ kinded n place content.now rest (kind_of tag) }
{
    let tag = Tag::try_from(tag).map_err(|_| FieldFault::UnknownTag(place))?;
    match (tag, content.len()) {
        (Tag::Variable, 13..=20) => Ok(Field::Variable(content)),
        (Tag::Tolerance, 4) => Ok(Field::Tolerance(content)),
        (Tag::Row, 5 | 9) => Ok(Field::Row(content)),
        (Tag::Term, length) if length.checked_sub(4) == Some(n) => Ok(Field::Term(content)),
        (Tag::End, 0) => Ok(Field::End),
        _ => Err(FieldFault::WrongLength(place)),
    }
}

/// The field in front, with its place, and the bytes behind it; n variables were read before it.
pub fn read_field<'a>(
    n: usize,
    place: usize,
    bytes: &'a [u8],
) -> Result<(Placed<'a>, &'a [u8]), FieldFault>
    ensures cut { cut_says result ≡ read_field n place bytes.now }
    ensures placed { IfOk result (λ x. x.0.place ≡ place) }
{
    let [tag, high, low, rest @ ..] = bytes else {
        return Err(FieldFault::Short(place));
    };
    let length = usize::from(u16::from_be_bytes([*high, *low]));
    let (content, after) = rest
        .split_at_checked(length)
        .ok_or(FieldFault::Short(place))?;
    let field = sort(n, place, *tag, content)?;
    Ok((Placed { place, field }, after))
}
