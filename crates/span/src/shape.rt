ghost use Rattle.std.specs.Prelude.{pos, negsuc, ◌≤ℤ◌};

// A closed span: two counts, the lower end at most the upper. A count is a whole number from -2147483647 to 2147483647.
#[derive(Clone, Copy, Debug, PartialEq, Eq)]
pub struct Span {
    pub lo: i32,
    pub hi: i32,
    ghost ordered: { lo ≤ℤ hi },
    ghost least: { negsuc 2147483646 ≤ℤ lo },
    ghost most: { hi ≤ℤ pos 2147483647 },
}

/// What a computation with spans gives: a closed span, or the open one, which holds every number.
// Not an Option: where a span is met, `None` says that no number is left, and here `Open` that none is ruled out.
#[derive(Clone, Copy, Debug, PartialEq, Eq)]
pub enum Reach<S = Span> {
    Open,
    Closed(S),
}

impl<S: Copy> Reach<S> {
    ghost use Rattle.span.specs.Reached.{BothBy};

    /// What `f` makes of two closed ones; open if one of them is.
    pub fn both<T: Copy, R: Copy, F: FnOnce(S, T) -> Reach<R>>(
        self,
        other: Reach<T>,
        f: F,
    ) -> Reach<R>
        requires { F.IsAlwaysCallable f }
        ensures { BothBy (F.post f) self other result }
    {
        match (self, other) {
            (Reach::Closed(a), Reach::Closed(b)) => f(a, b),
            _ => Reach::Open,
        }
    }
}
