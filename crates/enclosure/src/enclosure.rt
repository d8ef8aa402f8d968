ghost use Rattle.std.specs.Prelude.{◌≡◌, ℕ, ℤ};
ghost use Rattle.numbers.specs.Numbers.{Numbers};
ghost use Rattle.enclosure.specs.Laws.{EnclosureLaws};
ghost use Rattle.span.specs.declared.shape.Span.{Span};
ghost use Rattle.span.specs.Reached.{Reach};

use span::shape::{Reach, Span};

// A way to enclose numbers. Its meaning is which numbers it holds at which point, over every kind of number.
pub trait Enclosure: Sized + Copy {
    ghost holds: { (N : Numbers) → Self → (ℕ → N.carrier) → N.carrier → Type 0 };

    ghost numbered: { ℤ → Self };

    ghost coordinate: { ℕ → Span → ℤ → Self };

    ghost plus: { Self → Self → Self };

    ghost times: { Self → Self → Self };

    ghost raised: { Self → ℕ → Self };

    ghost spanned: { Self → Reach };

    ghost laws: { EnclosureLaws numbered coordinate plus times raised spanned holds };

    // The enclosure of a coefficient.
    fn number(c: i32) -> Self
        ensures { result ≡ numbered c };

    // The enclosure of variable i, which lies in s; `inside` is a number there.
    fn variable(i: usize, s: Span, inside: i32) -> Self
        ensures { result ≡ coordinate i s inside };

    fn sum(self, other: Self) -> Self
        ensures { result ≡ plus self other };

    fn product(self, other: Self) -> Self
        ensures { result ≡ times self other };

    fn power(self, e: u8) -> Self
        ensures { result ≡ raised self e };

    // A span that holds all that it holds.
    fn span(self) -> Reach
        ensures { result ≡ spanned self };
}
