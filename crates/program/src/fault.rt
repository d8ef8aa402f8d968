ghost use Rattle.std.specs.Prelude.{◌≡◌, IfOk, Some};
ghost use Rattle.program.specs.declared.fault.ProgramFault.TheVariants.{Sheet as InSheet, Run as InRun, Memory};
ghost use Rattle.program.specs.Faults.{refusal_of, run_number, fault_text, fault_line};

use format::fault::SheetFault;
use line::shape::{Reader, Refusal};
use std::alloc::{AllocError, Global};
use std::error::Error;
use std::fmt;

/// Why there was no run: it could not be opened. The fault has the number that the refusal line gives it.
#[derive(Clone, Copy, Debug, PartialEq, Eq)]
pub enum RunFault {
    NotOpened = 20,
}

impl RunFault {
    /// The number of the refusal.
    pub fn number(self) -> usize
        ensures { result ≡ run_number self }
    {
        self as usize
    }
}

/// Why a program ends early. The sheet's fault, or the run's, travels whole.
#[derive(Clone, Copy, Debug, PartialEq, Eq)]
pub enum ProgramFault {
    Sheet(SheetFault),
    Run(RunFault),
    Memory,
}

impl From<SheetFault> for ProgramFault {
    ghost from_gives = { λ f r. r ≡ InSheet f };

    fn from(fault: SheetFault) -> ProgramFault {
        ProgramFault::Sheet(fault)
    }
}

impl From<RunFault> for ProgramFault {
    ghost from_gives = { λ f r. r ≡ InRun f };

    fn from(fault: RunFault) -> ProgramFault {
        ProgramFault::Run(fault)
    }
}

impl From<AllocError> for ProgramFault {
    ghost from_gives = { λ _ r. r ≡ Memory };

    fn from(_none: AllocError) -> ProgramFault {
        ProgramFault::Memory
    }
}

impl fmt::Display for ProgramFault {
    ghost output = { λ f. Some (fault_text f) };

    fn fmt<W: fmt::Write>(&self, f: &mut fmt::Formatter<W>) -> fmt::Result {
        match self {
            ProgramFault::Sheet(refused) => write!(f, "{}", refusal_of(*refused)),
            ProgramFault::Run(refused) => write!(f, "REFUSED {} IN RUN", refused.number()),
            ProgramFault::Memory => f.write_str("NO MEMORY"),
        }
    }
}

impl Error for ProgramFault {}

/// A sheet's fault as the refusal line tells it.
// No `From`: both types are other crates'.
pub fn refusal_of(fault: SheetFault) -> Refusal
    ensures { result ≡ refusal_of fault }
{
    let reader = match fault {
        SheetFault::Field(_) => Reader::Field,
        _ => Reader::Sheet,
    };
    Refusal {
        number: fault.number(),
        place: fault.place(),
        reader,
    }
}

/// The line that a program ends with, and its newline.
pub fn fault_line(alloc: Global, fault: ProgramFault) -> Result<Vec<u8>, AllocError>
    ensures { IfOk result (λ s. s.items ≡ fault_line fault) }
{
    let text = format!(in alloc; "{fault}\n")?;
    Ok(text.into_bytes())
}
