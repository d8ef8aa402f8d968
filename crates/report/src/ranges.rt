ghost use Rattle.std.specs.Prelude.{◌≡◌, ◌++◌, IfOk, OnOk, Some};
ghost use Rattle.line.specs.Lines.{Written};
ghost use Rattle.report.specs.Ranges.{head_line, range_text, ranges_text, box_text, box_line, undecided_line, ranges_report};

use line::fault::LineFault;
use line::lend::{lend, line_of, write_shown};
use line::piece::{push_bytes, push_shown, push_text};
use runlaw::shape::{Filed, Verdict};
use sheet::variable::Variable;
use span::region::Region;
use span::shape::Span;
use std::alloc::{AllocError, Global};
use std::fmt;

/// How a run ended: the verdict, how many boxes were settled, and the number that the run stopped with.
#[derive(Clone, Copy, Debug, PartialEq, Eq)]
pub struct Head {
    pub verdict: Verdict,
    pub steps: u32,
    // the number and not the stop, which a crate above has
    pub stop: usize,
}

impl fmt::Display for Head {
    ghost output = { λ h. Some (head_line h.verdict h.steps h.stop) };

    fn fmt<W: fmt::Write>(&self, f: &mut fmt::Formatter<W>) -> fmt::Result {
        let Head {
            verdict,
            steps,
            stop,
        } = self;
        write!(f, "VERDICT {verdict} STEPS {steps} STOP {stop}")
    }
}

/// What a run found of these variables.
#[derive(Clone, Copy)]
pub struct Report<'a> {
    pub head: Head,
    pub variables: &'a [Variable],
    pub feasible: &'a [Region],
    pub undecided: &'a [Filed],
    pub pending: &'a [Region],
}

/// The first line.
pub fn head_line(alloc: Global, head: Head) -> Result<Vec<u8>, AllocError>
    ensures { IfOk result (λ s. s.items ≡ head_line head.verdict head.steps head.stop) }
{
    line_of(alloc, head)
}

// A variable's range: name=lo..hi behind a space.
fn push_range(line: &mut Vec<u8>, v: &Variable, s: Span) -> Result<(), AllocError>
    ensures { OnOk result (line.new.items ≡ line.old.items ++ range_text v.now s) }
{
    push_text(line, " ")?;
    push_bytes(line, v.name.bytes())?;
    push_shown(line, format_args!("={s}"))
}

fn push_ranges(line: &mut Vec<u8>, variables: &[Variable], spans: &[Span]) -> Result<(), AllocError>
    ensures { OnOk result (line.new.items ≡ line.old.items ++ ranges_text variables.now spans.now) }
{
    for (v, s) in variables.iter().zip(spans) {
        push_range(line, v, *s)?;
    }
    Ok(())
}

// A letter, the variables and a box are three arguments here and below: they come from the list, the sheet and the run.
fn push_box(
    line: &mut Vec<u8>,
    letter: &str,
    variables: &[Variable],
    b: &Region,
) -> Result<(), AllocError>
    ensures { OnOk result (line.new.items ≡ line.old.items ++ box_text letter.now variables.now b.now) }
{
    push_text(line, letter)?;
    push_ranges(line, variables, &b.spans[..b.n])
}

/// The line of a feasible (F) or pending (P) box, with its newline: each variable as name=lo..hi behind a space.
pub fn push_line(
    line: &mut Vec<u8>,
    letter: &str,
    variables: &[Variable],
    b: &Region,
) -> Result<(), AllocError>
    ensures { OnOk result (line.new.items ≡ line.old.items ++ box_line letter.now variables.now b.now) }
{
    push_box(line, letter, variables, b)?;
    push_text(line, "\n")
}

/// The line of an undecided box, with its cause and its newline.
pub fn push_undecided(
    line: &mut Vec<u8>,
    variables: &[Variable],
    f: &Filed,
) -> Result<(), AllocError>
    ensures { OnOk result (line.new.items ≡ line.old.items ++ undecided_line variables.now f.now) }
{
    push_box(line, "U", variables, &f.region)?;
    // the word as it is: shown, it would be put together in a text of its own first
    push_text(line, " ")?;
    push_text(line, f.cause.word())?;
    line.push(b'\n')?;
    Ok(())
}

/// The whole report: the first line, then the feasible, the undecided and the pending boxes, oldest first.
pub fn ranges_report(alloc: Global, report: &Report) -> Result<Vec<u8>, AllocError>
    ensures { IfOk result (λ s. s.items ≡ ranges_report report.now.variables.now report.now.head.verdict report.now.head.steps report.now.head.stop report.now.feasible.now report.now.undecided.now report.now.pending.now) }
{
    let mut out = head_line(alloc, report.head)?;
    push_text(&mut out, "\n")?;
    'feasible: for b in report.feasible {
        push_line(&mut out, "F", report.variables, b)?;
    }
    'undecided: for f in report.undecided {
        push_undecided(&mut out, report.variables, f)?;
    }
    'pending: for b in report.pending {
        push_line(&mut out, "P", report.variables, b)?;
    }
    Ok(out)
}

/// Writes the first line into the buffer.
pub fn write_head(alloc: Global, head: Head, buffer: &mut [u8]) -> Result<usize, LineFault>
    ensures { Written (head_line head.verdict head.steps head.stop) buffer.old result buffer.new }
{
    write_shown(alloc, head, buffer)
}

/// Writes the line of a feasible or pending box into the buffer.
pub fn write_box(
    alloc: Global,
    letter: &str,
    variables: &[Variable],
    b: &Region,
    buffer: &mut [u8],
) -> Result<usize, LineFault>
    ensures { Written (box_line letter.now variables.now b.now) buffer.old result buffer.new }
{
    let mut line = Vec::new(alloc);
    push_line(&mut line, letter, variables, b)?;
    lend(line.as_slice(), buffer)
}

/// Writes the line of an undecided box into the buffer.
pub fn write_undecided(
    alloc: Global,
    variables: &[Variable],
    f: &Filed,
    buffer: &mut [u8],
) -> Result<usize, LineFault>
    ensures { Written (undecided_line variables.now f.now) buffer.old result buffer.new }
{
    let mut line = Vec::new(alloc);
    push_undecided(&mut line, variables, f)?;
    lend(line.as_slice(), buffer)
}
