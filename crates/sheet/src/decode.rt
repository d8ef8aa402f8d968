ghost use Rattle.std.specs.Prelude.{◌≡◌, ◌≤◌, map, length, drop, if◌then◌else◌, Some, None};
ghost use Rattle.numbers.specs.Rows.{degree};
ghost use Rattle.format.specs.Reading.{variable_in, term_in, limits_in, is_letter, are_letters, good_variable, good_term, taken};
ghost use Rattle.sheet.specs.Held.{told, readable, is_name, name_is, variable_is, bounds_is, term_is, widened, padded};

use crate::content::{Asked, after, asked_in, count};
use crate::few::Few;
use crate::shape::{Bounds, Term};
use crate::variable::{Name, Variable};
use span::make::is_count;
use span::shape::Span;

// The bytes, and zeros up to eight. Two lines, as `Region::new` has for its spans.
fn eight(bytes: &[u8]) -> [u8; 8]
    requires { length bytes.now ≤ 8 }
    ensures { result ≡ widened bytes.now }
{
    let mut all = [0; 8];
    all[..bytes.len()].copy_from_slice(bytes);
    all
}

fn letter(b: u8) -> bool
    ensures { result ≡ is_letter b }
{
    matches!(b, b'A'..=b'Z' | b'0'..=b'9')
}

fn letters(bytes: &[u8]) -> bool
    ensures { result ≡ are_letters bytes.now }
{
    bytes.iter().all(|b| letter(*b))
}

// The name that these bytes spell; none if they are not 1 to 8 bytes out of A to Z and 0 to 9.
fn name(bytes: &[u8]) -> Option<Name>
    ensures { told name_is result ≡ (if is_name bytes.now then Some bytes.now else None) }
{
    // the length first, so that no more than eight are looked at
    let held = Few::holding(bytes, 0)?;
    if bytes.is_empty() || !letters(bytes) {
        return None;
    }
    Some(Name { bytes: held })
}

// The variable in a field's content; none if a value is out of range.
pub(crate) fn variable(bytes: &[u8]) -> Option<Variable>
    requires { (13 ≤ length bytes.now) × (length bytes.now ≤ 20) }
    ensures { told variable_is result ≡ (if good_variable (variable_in bytes.now) then Some (variable_in bytes.now) else None) }
{
    let lo = count(bytes);
    let hi = count(after(bytes, 4));
    let nominal = count(after(bytes, 8));
    let span = Span::new(lo, hi)?;
    if nominal < span.lo || span.hi < nominal {
        return None;
    }
    let name = name(after(bytes, 12))?;
    Some(Variable {
        name,
        span,
        nominal,
    })
}

// What a row asks, if it asks for something and that is in range.
pub(crate) fn bounds(bytes: &[u8]) -> Option<Bounds>
    ensures { told bounds_is result ≡ readable (limits_in bytes.now) }
{
    match asked_in(bytes)? {
        Asked::AtLeast(lo) if is_count(lo) => Some(Bounds::AtLeast(lo)),
        Asked::AtMost(hi) if is_count(hi) => Some(Bounds::AtMost(hi)),
        Asked::Between(lo, hi) => Some(Bounds::Between(Span::new(lo, hi)?)),
        _ => None,
    }
}

// The sum of the exponents.
fn degree_of(bytes: &[u8]) -> usize
    requires { length bytes.now ≤ 8 }
    ensures { result ≡ degree bytes.now }
{
    bytes.iter().map(|b| usize::from(*b)).sum()
}

// The term in a field's content; none if the coefficient is no count or the degree passes 4.
pub(crate) fn term(bytes: &[u8]) -> Option<Term>
    requires { (4 ≤ length bytes.now) × (length bytes.now ≤ 12) }
    ensures { told term_is result ≡ (if good_term (term_in bytes.now) then Some (padded (term_in bytes.now)) else None) }
{
    let coefficient = count(bytes);
    let powers = after(bytes, 4);
    if !is_count(coefficient) || degree_of(powers) > 4 {
        return None;
    }
    Some(Term {
        coefficient,
        exponents: eight(powers),
    })
}

impl Name {
    /// The name in the content of a variable field; none if it is not 1 to 8 bytes out of A to Z and 0 to 9.
    pub fn in_variable(content: &[u8]) -> Option<Name>
        ensures { told name_is result ≡ (if is_name (drop 12 content.now) then Some (drop 12 content.now) else None) }
    {
        name(after(content, 12))
    }

    /// The name's bytes.
    pub fn bytes(&self) -> &[u8]
        ensures { result.now ≡ name_is self.now }
    {
        self.bytes.as_slice()
    }
}

// Whether one of the variables has this name.
pub(crate) fn name_taken(name: &Name, variables: &[Variable]) -> bool
    ensures { result ≡ taken (name_is name.now) (map variable_is variables.now) }
{
    variables.iter().any(|v| v.name == *name)
}
