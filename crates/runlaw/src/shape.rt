ghost use Rattle.std.specs.Prelude.{◌≡◌, Some};
ghost use Rattle.runlaw.specs.Numbers.{take_number};
ghost use Rattle.runlaw.specs.Words.{verdict_word, cause_word};

use span::region::Region;
use std::fmt;

/// Why a box was filed undecided: no variable is wider than the tolerance, or the halves had no place.
#[derive(Clone, Copy, Debug, PartialEq, Eq)]
pub enum Cause {
    Small,
    Crowded,
}

impl Cause {
    /// The word that tells it.
    pub fn word(self) -> &'static str
        ensures { result.now ≡ cause_word self }
    {
        match self {
            Cause::Small => "SMALL",
            Cause::Crowded => "CROWDED",
        }
    }
}

impl fmt::Display for Cause {
    ghost output = { λ c. Some (cause_word c) };

    fn fmt<W: fmt::Write>(&self, f: &mut fmt::Formatter<W>) -> fmt::Result {
        f.write_str(self.word())
    }
}

/// An undecided box with its cause.
#[derive(Clone, Copy, Debug, PartialEq, Eq)]
pub struct Filed {
    pub region: Region,
    pub cause: Cause,
}

/// What became of a settled box.
#[derive(Clone, Copy, Debug, PartialEq, Eq)]
pub enum Outcome {
    Discarded,
    Feasible,
    Small,
    Crowded,
    Split,
}

/// What is known of the starting box: some feasible box, work left, undecided boxes alone, or no solution.
#[derive(Clone, Copy, Debug, PartialEq, Eq)]
pub enum Verdict {
    Some,
    Unfinished,
    Unsure,
    None,
}

impl fmt::Display for Verdict {
    ghost output = { λ v. Some (verdict_word v) };

    fn fmt<W: fmt::Write>(&self, f: &mut fmt::Formatter<W>) -> fmt::Result {
        f.write_str(match self {
            Verdict::Some => "SOME",
            Verdict::Unfinished => "UNFINISHED",
            Verdict::Unsure => "UNSURE",
            Verdict::None => "NONE",
        })
    }
}

/// A settled box: what became of it, and how many have been settled with it.
#[derive(Clone, Copy, Debug, PartialEq, Eq)]
pub struct Settled {
    pub outcome: Outcome,
    pub count: u32,
}

/// Why nothing was taken, each refusal with its number.
#[derive(Clone, Copy, Debug, PartialEq, Eq)]
pub enum Refusal {
    HandFull = 21,
    NothingPending = 22,
    AtLimit = 23,
}

impl Refusal {
    /// The number of the refusal.
    pub fn number(self) -> usize
        ensures { result ≡ take_number self }
    {
        self as usize
    }
}
