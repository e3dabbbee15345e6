//! The faults of refused traces.
ghost use Rattle.std.specs.Prelude.{◌≡◌, IfOk, map};
ghost use Rattle.ld_batch.specs.Batch.{AreOutcomes, sources_of};
ghost use Rattle.ld_explain.specs.Faults.{fault_said};
ghost use Rattle.ld_explain.specs.Rows.{AreRefusals, refusals};
ghost use Rattle.ld_explain.specs.Steps.{IsEvery};

use crate::violations::Choice;
use ld_overview::{Book, Traces, Witness};
use ld_rules::{Listed, Outcome, TraceFault};
use std::alloc::{AllocError, Global};

/// Why a trace is refused, and at which line.
#[derive(Clone, Copy, Debug)]
pub struct Fault {
    pub at: Witness,
    pub fault: TraceFault,
}

/// The faults of the refused traces of a book, in the order of a report. None if violations of a kind or of a class are
/// chosen.
///
/// # Errors
///
/// `AllocError` where a growth of memory was refused.
pub fn faults(alloc: Global, book: &Book<'_>, choice: &Choice<'_>) -> Result<Vec<Fault>, AllocError>
    ensures { IsEvery choice.now → IfOk result (λ all. AreRefusals book.now (map fault_said all.items)) }
{
    if !choice.is_every() {
        return Ok(Vec::new(alloc));
    }
    let traces = Traces::new(alloc, book)?;
    faults_of(alloc, traces.listed())
}

/// The faults of those of these traces that are refused.
fn faults_of(alloc: Global, listed: &[Listed<'_>]) -> Result<Vec<Fault>, AllocError>
    requires { AreOutcomes listed.now }
    ensures { IfOk result (λ all. map fault_said all.items ≡ refusals (sources_of listed.now)) }
{
    let mut faults = Vec::new(alloc);
    for trace in listed {
        if let Outcome::Refused { line, fault } = trace.outcome {
            let number = trace.source.number;
            faults.push(Fault {
                at: Witness { number, line },
                fault,
            })?;
        }
    }
    Ok(faults)
}
