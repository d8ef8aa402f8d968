ghost use Rattle.std.specs.Prelude.{◌≡◌, ◌≤◌, ◌↔◌, [], Some, codes, length, take, drop, IsTrue};
ghost use Rattle.std.specs.List.{slice_get};
ghost use Rattle.list.specs.Lists.{Listed, items, room, empty, holding, newest, older, added, has_room, free, fits, fronted, replaced};
ghost use Rattle.list.specs.Answers.{answered};

use std::error::Error;
use std::fmt;
use std::marker::Model;

/// A list over places that the caller lends, oldest first.
// The project's memory is fixed: a list lies over lent places with its count beside them, and in no Vec.
#[derive(Drop)]
pub struct List<'a, T> {
    places: &'a mut [T],
    len: usize,
}

impl<'a, T> Model for List<'a, T> {
    ghost Value = { Listed T };

    // What stands past `len` is of no account to a caller; it stays as it was all the same.
    ghost view = { λ l. record { held = take l.len l.places.now; spare = drop l.len l.places.now; places = length l.places.now } };

    ghost invariant = { λ l. l.len ≤ length l.places.now };
}

/// There is no place left for it.
#[derive(Clone, Copy, Debug, PartialEq, Eq)]
pub struct Full;

impl fmt::Display for Full {
    ghost output = { λ _. Some (codes "the list has no place left") };

    fn fmt<W: fmt::Write>(&self, f: &mut fmt::Formatter<W>) -> fmt::Result {
        f.write_str("the list has no place left")
    }
}

impl Error for Full {}

/// Copies these to the front of the places; the places behind stay. Refused, and all as it was, where they are more than the places.
pub fn copy_to_front<T: Copy>(places: &mut [T], xs: &[T]) -> Result<(), Full>
    ensures holds { places.new ≡ fronted places.old xs.now }
    ensures says { result ≡ answered (fits (length places.old) xs.now) }
{
    if xs.len() > places.len() {
        return Err(Full);
    }
    places[..xs.len()].copy_from_slice(xs);
    Ok(())
}

impl<'a, T: Copy> List<'a, T> {
    /// An empty list over these places.
    pub fn over(places: &'a mut [T]) -> List<'a, T>
        ensures { result ≡ empty places.old }
    {
        List { places, len: 0 }
    }

    /// How many places it has.
    pub fn places(&self) -> usize
        ensures { result ≡ room self.now }
    {
        self.places.len()
    }

    /// How many it holds.
    pub fn len(&self) -> usize
        ensures counts { result ≡ length (items self.now) }
        ensures within { result ≤ room self.now }
    {
        self.items().len()
    }

    /// Whether it holds nothing.
    pub fn is_empty(&self) -> bool
        ensures { IsTrue result ↔ (items self.now ≡ []) }
    {
        self.items().is_empty()
    }

    /// How many places are free.
    pub fn free(&self) -> usize
        ensures { result ≡ free (room self.now) (items self.now) }
    {
        self.places() - self.len()
    }

    /// Element i, the oldest being 0.
    pub fn get(&self, i: usize) -> Option<T>
        ensures { result ≡ slice_get (items self.now) i }
    {
        self.items().get(i).copied()
    }

    /// What it holds, oldest first.
    pub fn items(&self) -> &[T]
        ensures holds { result.now ≡ items self.now }
        ensures within { length result.now ≤ room self.now }
    {
        &self.places[..self.len]
    }

    /// One more at the end. A full list refuses and stays as it is.
    pub fn add(&mut self, x: T) -> Result<(), Full>
        ensures holds { self.new ≡ holding self.old (added (room self.old) (items self.old) x) }
        ensures says { result ≡ answered (has_room (room self.old) (items self.old)) }
    {
        if self.len == self.places.len() {
            return Err(Full);
        }
        self.places[self.len] = x;
        self.len += 1;
        Ok(())
    }

    /// Takes the newest out.
    pub fn pop(&mut self) -> Option<T>
        ensures gives { result ≡ newest (items self.old) }
        ensures holds { self.new ≡ holding self.old (older (items self.old)) }
    {
        let last = self.len.checked_sub(1)?;
        self.len = last;
        Some(self.places[last])
    }

    /// Holds nothing from here on.
    pub fn clear(&mut self)
        ensures { self.new ≡ holding self.old [] }
    {
        self.len = 0;
    }

    /// Holds these in place of what it held. Refused, and as it was, where they are more than its places.
    pub fn replace(&mut self, xs: &[T]) -> Result<(), Full>
        ensures holds { self.new ≡ holding self.old (replaced (room self.old) (items self.old) xs.now) }
        ensures says { result ≡ answered (fits (room self.old) xs.now) }
    {
        copy_to_front(self.places, xs)?;
        self.len = xs.len();
        Ok(())
    }
}
