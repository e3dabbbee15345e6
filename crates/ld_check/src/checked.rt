//! The book and the report of a stream, by several workers.
ghost use Rattle.std.specs.Prelude.{◌≡◌, ◌≤◌, Err, IfOk, IfSome, Some, map, ◌↔◌, IfErr};
ghost use Rattle.ld_trace.specs.declared.source.StreamFault.{StreamFault};
ghost use Rattle.ld_trace.specs.Sources.{plain, sources, stream_fault};
ghost use Rattle.ld_work.specs.Work.{ListsEachOnce};
ghost use Rattle.ld_report.specs.OfBook.Violations.{HasViolation};
ghost use Rattle.ld_report.specs.Report.{IsReport, SaysClean};
ghost use Rattle.ld_report.specs.Verdict.{VerdictIs};

use ld_report::{Book, Verdict, report, verdict_of};
use ld_trace::{Source, StreamFault, split};
use ld_work::{Gate, MOST_FEEDERS, Portion, WorkFault, work_by};
use std::alloc::{AllocError, Global};
use std::sync::Wait;
use std::thread::Threads;

/// How many workers there are at most.
pub const MOST_WORKERS: usize = MOST_FEEDERS;

/// A stream that was read whole.
#[derive(Drop)]
pub struct Checked<'a> {
    /// Its traces, in order.
    pub sources: Vec<Source<'a>>,
    /// The book that lists them, in the order in which the workers came.
    pub book: Book<'a>,
}

/// Why there is no book of a stream.
#[derive(Clone, Copy, Debug, PartialEq, Eq)]
pub enum CheckFault {
    /// The stream has this fault, which is never `StreamFault::Memory`.
    Stream(StreamFault),
    /// A growth of memory was refused.
    Memory,
    /// The book doesn't list just the traces of the stream; this number is the least that tells so.
    Uneven(u64),
}

/// The book of a stream, by that many workers at once, each of which passes the gate before it reads a
/// trace. May wait.
///
/// # Errors
///
/// `Stream` exactly where the stream has a fault, whatever memory there is; `Memory` where a growth was
/// refused; and `Uneven` where the book isn't that of the stream.
pub fn check<'a, G: Gate + Sync, R: Threads + Wait + Sync>(
    rt: &R,
    alloc: Global,
    bytes: &'a [u8],
    workers: usize,
    gate: &G,
) -> Result<Checked<'a>, CheckFault>
    requires { (1 ≤ workers) × (workers ≤ MOST_WORKERS) }
    ensures sources { IfOk result (λ checked.
        map plain checked.sources.items ≡ sources bytes.entry.now) }
    ensures book { IfOk result (λ checked.
        ListsEachOnce (sources bytes.entry.now) checked.book) }
    ensures fault { IfSome (stream_fault bytes.entry.now) (λ fault.
        result ≡ Err (CheckFault.Stream fault)) }
    ensures sound { (fault : StreamFault) → result ≡ Err (CheckFault.Stream fault) →
        stream_fault bytes.entry.now ≡ Some fault }
{
    let sources = split(alloc, bytes)?;
    let book = work_by(rt, alloc, &sources, workers, Portion::Bytes, gate)?;
    Ok(Checked { sources, book })
}

impl From<StreamFault> for CheckFault {
    ghost use Rattle.ld_check.specs.Faults.{check_fault_of_stream};

    ghost from_gives = { λ fault gives. gives ≡ check_fault_of_stream fault };

    fn from(fault: StreamFault) -> CheckFault {
        match fault {
            StreamFault::Memory => CheckFault::Memory,
            fault => CheckFault::Stream(fault),
        }
    }
}

impl From<WorkFault> for CheckFault {
    ghost use Rattle.ld_check.specs.Faults.{check_fault_of_work};

    ghost from_gives = { λ fault gives. gives ≡ check_fault_of_work fault };

    fn from(fault: WorkFault) -> CheckFault {
        match fault {
            WorkFault::Memory => CheckFault::Memory,
            WorkFault::Uneven(number) => CheckFault::Uneven(number),
        }
    }
}

impl From<AllocError> for CheckFault {
    ghost use Rattle.ld_check.specs.declared.checked.CheckFault.TheVariants.{Memory};

    ghost from_gives = { λ _ fault. fault ≡ Memory };

    fn from(_refusal: AllocError) -> CheckFault {
        CheckFault::Memory
    }
}

/// The report of a stream.
#[derive(Debug, Drop)]
pub struct Report {
    /// Its lines, each ended by LF.
    pub text: Vec<u8>,
    /// What it comes to.
    pub verdict: Verdict,
}

/// The report of a stream, whose traces that many workers read at once: how many traces it has and how
/// many are refused, the numbers of events, classes and dependencies, a line for each refused trace, one
/// for each violation, and a last one that says how many those are. May wait.
///
/// # Errors
///
/// Those of `check`, and `Memory` where there is no memory for the text.
pub fn report_of<G: Gate + Sync, R: Threads + Wait + Sync>(
    rt: &R,
    alloc: Global,
    bytes: &[u8],
    workers: usize,
    gate: &G,
) -> Result<Report, CheckFault>
    requires { (1 ≤ workers) × (workers ≤ MOST_WORKERS) }
    ensures text { IfOk result (λ report. IsReport (sources bytes.now) report.text.items) }
    ensures clean { IfOk result (λ report.
        SaysClean report.text.items ↔ (¬ HasViolation (sources bytes.now))) }
    ensures verdict { IfOk result (λ report. VerdictIs (sources bytes.now) report.verdict) }
    ensures fault { IfSome (stream_fault bytes.now) (λ fault.
        result ≡ Err (CheckFault.Stream fault)) }
    ensures sound { (fault : StreamFault) → result ≡ Err (CheckFault.Stream fault) →
        stream_fault bytes.now ≡ Some fault }
{
    let checked = check(rt, alloc, bytes, workers, gate)?;
    let report = report_on(alloc, &checked.book);
    drop(checked);
    report
}

/// The report of the traces that a book lists, with what it comes to.
pub(crate) fn report_on(alloc: Global, book: &Book<'_>) -> Result<Report, CheckFault>
    ensures text { IfOk result (λ report. IsReport book.now report.text.items) }
    ensures verdict { IfOk result (λ report. VerdictIs book.now report.verdict) }
    ensures memory { IfErr result (λ fault. fault ≡ CheckFault.Memory) }
{
    let text = report(alloc, book)?;
    let verdict = verdict_of(book);
    Ok(Report { text, verdict })
}
