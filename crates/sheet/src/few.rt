ghost use Rattle.std.specs.Prelude.{◌≡◌, ◌<◌, ◌≤◌, ◌==◌, [], ◌∷◌, ◌++◌, length, Some, None, MatchOption};
ghost use Rattle.std.specs.Cmp.{on_equiv, on_per};
ghost use Rattle.std.specs.Cmp.Lexicographic.{pointwise, lists_per, lists_equiv};

use std::fmt;
use std::marker::Model;

/// Up to N values, which lie in place and are copied as a whole.
// An `ArrayVec` is not `Copy`, and a sheet's names and variables are.
#[derive(Clone, Copy)]
pub struct Few<T, const N: usize> {
    pub(crate) places: [T; N],
    pub(crate) len: usize,
}

impl<T, const N: usize> Model for Few<T, N> {
    ghost use Rattle.std.specs.Prelude.{◌≡◌, ◌≤◌, ◌++◌, length, take, drop};
    ghost use Rattle.std.proofs.Common.{arith, take-append-drop, length-take-le};
    ghost use Rattle.sheet.specs.Fews.{Few as Held};

    ghost Value = { Held T };

    ghost view = { λ v. record { items = take v.len v.places; spare = drop v.len v.places } };

    ghost invariant = { λ v. (v.len ≤ N) × (length v.places ≡ N) };

    ghost inverse = { λ v. record { places = v.items ++ v.spare; len = length v.items } };

    ghost inverse_ok = { λ v h i. record { places = take-append-drop v.len v.places i; len = length-take-le v.len v.places (omega (arith, h.0, h.1)) i } };
}

impl<T: Copy, const N: usize> Few<T, N> {
    // None of them, over places that hold `spare`.
    pub(crate) fn over(spare: T) -> Few<T, N>
        ensures { result.items ≡ [] }
    {
        Few {
            places: [spare; N],
            len: 0,
        }
    }

    // These, with `spare` in the places behind; none where they are more than the places.
    pub(crate) fn holding(xs: &[T], spare: T) -> Option<Few<T, N>>
        ensures { MatchOption result (N < length xs.now) (λ v. (v.items ≡ xs.now) × (length xs.now ≤ N)) }
    {
        if xs.len() > N {
            return None;
        }
        let mut places = [spare; N];
        places[..xs.len()].copy_from_slice(xs);
        Some(Few {
            places,
            len: xs.len(),
        })
    }

    // How many there are.
    pub(crate) fn len(&self) -> usize
        ensures value { result ≡ length self.now.items }
        ensures fits { result ≤ N }
    {
        self.len
    }

    // Whether there is no place left.
    pub(crate) fn is_full(&self) -> bool
        ensures value { result ≡ (length self.now.items == N) }
        ensures fits { length self.now.items ≤ N }
    {
        self.len == N
    }

    // All of them, in order.
    pub(crate) fn as_slice(&self) -> &[T]
        ensures value { result.now ≡ self.now.items }
        ensures fits { length result.now ≤ N }
    {
        &self.places[..self.len]
    }

    // One more at the end.
    pub(crate) fn push(&mut self, x: T)
        requires { length self.old.items < N }
        ensures items { self.new.items ≡ self.old.items ++ x ∷ [] }
    {
        self.places[self.len] = x;
        self.len += 1;
    }
}

impl<T: Copy + Default, const N: usize> Default for Few<T, N> {
    ghost is_default = { λ v. v.items ≡ [] };

    fn default() -> Few<T, N> {
        Few::over(T::default())
    }
}

impl<T: PartialEq, const N: usize> PartialEq for Few<T, N> {
    ghost eq = { λ v w. pointwise T.eq v.items w.items };

    ghost laws = { on_per (λ v. v.items) (lists_per T.laws) };

    fn eq(&self, other: &Few<T, N>) -> bool {
        self.places[..self.len] == other.places[..other.len]
    }
}

impl<T: Eq, const N: usize> Eq for Few<T, N> {
    ghost laws = { on_equiv (λ v. v.items) (lists_equiv T.Eq.laws) };
}

impl<T: fmt::Debug, const N: usize> fmt::Debug for Few<T, N> {
    fn fmt<W: fmt::Write>(&self, f: &mut fmt::Formatter<W>) -> fmt::Result {
        f.debug_list().entries(&self.places[..self.len]).finish()
    }
}
