ghost use Rattle.std.specs.Prelude.{◌≡◌, Some};
ghost use Rattle.line.specs.declared.fault.LineFault.TheVariants.{TooLong, NoMemory};
ghost use Rattle.line.specs.Lines.{number, fault_words};

use list::lent::Full;
use std::alloc::AllocError;
use std::error::Error;
use std::fmt;

/// Why a line was not written, each fault with its number in a report.
#[derive(Clone, Copy, Debug, PartialEq, Eq)]
pub enum LineFault {
    /// It is longer than the buffer.
    TooLong = 30,
    /// There was no memory to put it together.
    NoMemory = 31,
}

impl LineFault {
    /// The number that stands for it in a report.
    pub fn number(self) -> usize
        ensures { result ≡ number self }
    {
        self as usize
    }
}

impl From<Full> for LineFault {
    ghost from_gives = { λ _ r. r ≡ TooLong };

    fn from(_full: Full) -> LineFault {
        Self::TooLong
    }
}

impl From<AllocError> for LineFault {
    ghost from_gives = { λ _ r. r ≡ NoMemory };

    fn from(_none: AllocError) -> LineFault {
        Self::NoMemory
    }
}

impl fmt::Display for LineFault {
    ghost output = { λ f. Some (fault_words f) };

    fn fmt<W: fmt::Write>(&self, f: &mut fmt::Formatter<W>) -> fmt::Result {
        f.write_str(match self {
            LineFault::TooLong => "the line is longer than the buffer",
            LineFault::NoMemory => "there is no memory for the line",
        })
    }
}

impl Error for LineFault {}
