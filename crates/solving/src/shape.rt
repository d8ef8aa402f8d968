ghost use Rattle.std.specs.Prelude.{◌≡◌};
ghost use Rattle.solving.specs.Numbers.{stop_number};

use run::run::Run;
use runlaw::shape::Refusal;

/// Why a run to the end stopped: nothing was taken, or the list to file the taken box in was full.
#[derive(Clone, Copy, Debug, PartialEq, Eq)]
pub enum Stop {
    Untaken(Refusal),
    FeasibleFull,
    UndecidedFull,
}

impl Stop {
    /// The number of the refusal.
    pub fn number(self) -> usize
        ensures { result ≡ stop_number self }
    {
        // no discriminants: a refusal keeps its own number
        match self {
            Stop::Untaken(refusal) => refusal.number(),
            Stop::FeasibleFull => 25,
            Stop::UndecidedFull => 26,
        }
    }
}

/// A run at its end, and why it stopped.
#[derive(Drop)]
pub struct Ended<'r, 's, 'a> {
    pub run: Run<'r, 's, 'a>,
    pub stop: Stop,
}
