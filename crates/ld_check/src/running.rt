//! One run: reads a stream while workers read its traces, and writes its report.
ghost use Rattle.std.specs.Prelude.{◌≡◌, ◌≢◌, ◌≤◌, ◌↔◌, ℕ, List, false, true, IfOk, IsErr, OnOk, ⊤, Err, IfSome, None, Some, map};
ghost use Rattle.std.specs.Io.KnownBytes.{Appends};
ghost use Rattle.ld_trace.specs.declared.source.StreamFault.{StreamFault};
ghost use Rattle.ld_report.specs.OfBook.Violations.{HasViolation};
ghost use Rattle.ld_io.specs.Transfer.{AppendsPart, ConsumesAtMost};
ghost use Rattle.ld_report.specs.Report.{IsReport, SaysClean};
ghost use Rattle.ld_report.specs.Verdict.{VerdictIs};
ghost use Rattle.ld_check.specs.Run.{Answers, Refuses};
ghost use Rattle.ld_trace.specs.Sources.{AreNumbered, plain, sources, stream_fault};

use crate::checked::{CheckFault, MOST_WORKERS, Report, report_of, report_on};
use crate::reading::read_stream;
use ld_io::{Input, MOST_READ, Output, ReadFault, send};
use ld_pieces::Pieces;
use ld_report::{Book, Verdict};
use ld_trace::{LONGEST_STREAM, Source, StreamFault};
use ld_work::{Cuts, NoGate, compared, work_on};
use std::alloc::{AllocError, Global};
use std::sync::{OnceLock, Wait};
use std::thread::{Threads, join_mut};
use thiserror::Error;

/// Why a run gave no whole report.
#[derive(Clone, Copy, Debug, PartialEq, Eq, Error)]
pub enum RunFault {
    /// A read failed.
    #[error("read failed")]
    Read,
    /// A write or the flush failed.
    #[error("write failed")]
    Write,
    /// What was read is not a stream.
    #[error("{0}")]
    Stream(StreamFault),
    /// A growth of memory was refused.
    #[error("out of memory")]
    Memory,
    /// The workers' book doesn't list just the traces that were read; this number is the least that
    /// tells so.
    #[error("uneven at {0}")]
    Uneven(u64),
}

/// Reads the input to its end, or its first `MOST_READ` bytes where it has more than the longest
/// stream, lets that many workers read its traces at once, and then writes and flushes their report,
/// which is the same however many they are. No read, write or flush that fails is tried again. May wait.
///
/// # Errors
///
/// `Read` exactly where a read failed, and `Write` exactly where a write or the flush failed: a first
/// part of the report was written then, and after any other fault nothing. `Stream` with the fault of
/// what was read, `Memory` where a growth was refused, and `Uneven` where the workers' book isn't that
/// of the stream.
pub fn run<I: Input, O: Output, R: Threads + Wait + Sync>(
    rt: &R,
    alloc: Global,
    input: &mut I,
    output: &mut O,
    workers: usize,
) -> Result<Verdict, RunFault>
    requires input_sound { I.read_failed input.old ≡ false }
    requires input_open { I.has_ended input.old ≡ false }
    requires output_sound { O.write_failed output.old ≡ false }
    requires workers { (1 ≤ workers) × (workers ≤ MOST_WORKERS) }

    ensures ok { IfOk result (λ answer.
        Answers (I.left input.old) (I.left input.new) (I.has_ended input.new) (λ traces.
        ((text : List ℕ) × IsReport traces text
        × Appends (O.held output.old) (O.held output.new) text)
        × VerdictIs traces answer)) }
    ensures clean { OnOk result (
        Answers (I.left input.old) (I.left input.new) (I.has_ended input.new) (λ traces.
        (text : List ℕ) × IsReport traces text
        × Appends (O.held output.old) (O.held output.new) text
        × (SaysClean text ↔ (¬ HasViolation traces)))) }
    ensures flushed { OnOk result (O.is_flushed output.new ≡ true) }

    ensures read { (result ≡ Err RunFault.Read) ↔ (I.read_failed input.new ≡ true) }
    ensures write { (result ≡ Err RunFault.Write) ↔ (O.write_failed output.new ≡ true) }
    ensures part { result ≡ Err RunFault.Write →
        Answers (I.left input.old) (I.left input.new) (I.has_ended input.new) (λ traces.
        (text : List ℕ) × IsReport traces text
        × AppendsPart (O.held output.old) (O.held output.new) text) }
    ensures stream { (fault : StreamFault) → result ≡ Err (RunFault.Stream fault) →
        Refuses (I.left input.old) (I.left input.new) (I.has_ended input.new) fault }
    ensures uneven { (number : ℕ) → result ≡ Err (RunFault.Uneven number) →
        Answers (I.left input.old) (I.left input.new) (I.has_ended input.new) (λ _. ⊤) }
    ensures nothing { IsErr result → result ≢ Err RunFault.Write → output.new ≡ output.old }

    // Of any input no more than this is read.
    ensures most { ConsumesAtMost (I.left input.old) (I.left input.new) MOST_READ }
{
    let report = report_while(rt, alloc, input, workers)?;
    match send(output, &report.text) {
        Ok(()) => Ok(report.verdict),
        Err(_) => Err(RunFault::Write),
    }
}

impl From<ReadFault> for RunFault {
    ghost use Rattle.ld_check.specs.Run.{run_fault_of_read};

    ghost from_gives = { λ fault gives. gives ≡ run_fault_of_read fault };

    fn from(fault: ReadFault) -> RunFault {
        match fault {
            ReadFault::Read => RunFault::Read,
            ReadFault::Memory => RunFault::Memory,
        }
    }
}

impl From<AllocError> for RunFault {
    ghost use Rattle.ld_check.specs.declared.running.RunFault.TheVariants.{Memory};

    ghost from_gives = { λ _ fault. fault ≡ Memory };

    fn from(_refusal: AllocError) -> RunFault {
        RunFault::Memory
    }
}

impl From<CheckFault> for RunFault {
    ghost use Rattle.ld_check.specs.Run.{run_fault_of_check};

    ghost from_gives = { λ fault gives. gives ≡ run_fault_of_check fault };

    fn from(fault: CheckFault) -> RunFault {
        match fault {
            CheckFault::Stream(fault) => RunFault::Stream(fault),
            CheckFault::Memory => RunFault::Memory,
            CheckFault::Uneven(number) => RunFault::Uneven(number),
        }
    }
}

/// More pieces than the longest stream has: each two of them have at least 256 KiB, and the 32nd part of all before.
const MOST_PIECES: usize = 512;

/// The report of a stream whose traces that many workers read while it is read. May wait.
///
/// # Errors
///
/// `Read` exactly if a read failed, `Stream` with the fault of what was read, `Memory` if a growth was refused, and
/// `Uneven` if the workers' book isn't that of the stream.
pub(crate) fn report_while<I: Input, R: Threads + Wait + Sync>(
    rt: &R,
    alloc: Global,
    input: &mut I,
    workers: usize,
) -> Result<Report, RunFault>
    requires sound { I.read_failed input.old ≡ false }
    requires open { I.has_ended input.old ≡ false }
    requires workers { (1 ≤ workers) × (workers ≤ MOST_WORKERS) }

    ensures ok { IfOk result (λ report.
        Answers (I.left input.old) (I.left input.new) (I.has_ended input.new) (λ traces.
        IsReport traces report.text.items × VerdictIs traces report.verdict
        × (SaysClean report.text.items ↔ (¬ HasViolation traces)))) }
    ensures read { (result ≡ Err RunFault.Read) ↔ (I.read_failed input.new ≡ true) }
    ensures stream { (fault : StreamFault) → result ≡ Err (RunFault.Stream fault) →
        Refuses (I.left input.old) (I.left input.new) (I.has_ended input.new) fault }
    ensures uneven { (number : ℕ) → result ≡ Err (RunFault.Uneven number) →
        Answers (I.left input.old) (I.left input.new) (I.has_ended input.new) (λ _. ⊤) }
    ensures write { result ≢ Err RunFault.Write }
    ensures most { ConsumesAtMost (I.left input.old) (I.left input.new) MOST_READ }
{
    let texts = cells(alloc)?;
    let report = report_with_cells(rt, alloc, input, &texts, workers);
    drop(texts);
    report
}

/// Empty cells for the pieces.
fn cells(alloc: Global) -> Result<Vec<OnceLock<Vec<u8>>>, AllocError> {
    let mut cells = Vec::with_capacity(alloc, MOST_PIECES)?;
    for _ in 0..MOST_PIECES {
        cells.push(OnceLock::new())?;
    }
    Ok(cells)
}

/// As `report_while`, with cells for the pieces.
fn report_with_cells<'a, I: Input, R: Threads + Wait + Sync>(
    rt: &R,
    alloc: Global,
    input: &mut I,
    texts: &'a [OnceLock<Vec<u8>>],
    workers: usize,
) -> Result<Report, RunFault>
    requires sound { I.read_failed input.old ≡ false }
    requires open { I.has_ended input.old ≡ false }
    requires workers { (1 ≤ workers) × (workers ≤ MOST_WORKERS) }

    ensures ok { IfOk result (λ report.
        Answers (I.left input.old) (I.left input.new) (I.has_ended input.new) (λ traces.
        IsReport traces report.text.items × VerdictIs traces report.verdict
        × (SaysClean report.text.items ↔ (¬ HasViolation traces)))) }
    ensures read { (result ≡ Err RunFault.Read) ↔ (I.read_failed input.new ≡ true) }
    ensures stream { (fault : StreamFault) → result ≡ Err (RunFault.Stream fault) →
        Refuses (I.left input.old) (I.left input.new) (I.has_ended input.new) fault }
    ensures uneven { (number : ℕ) → result ≡ Err (RunFault.Uneven number) →
        Answers (I.left input.old) (I.left input.new) (I.has_ended input.new) (λ _. ⊤) }
    ensures write { result ≢ Err RunFault.Write }
    ensures most { ConsumesAtMost (I.left input.old) (I.left input.new) MOST_READ }
{
    let cuts = Cuts::new(alloc);
    // If no thread can be started, the stream is read first, and its traces afterwards.
    let (book, read) = join_mut(
        rt,
        &mut ||
            requires { (1 ≤ workers) × (workers ≤ MOST_WORKERS) }
        { work_on(rt, alloc, &cuts, workers) },
        &mut || read_stream(rt, alloc, input, texts, &cuts),
    );
    let pieces = match read {
        Ok(pieces) => pieces,
        Err(fault) => {
            drop(book);
            return Err(RunFault::from(fault));
        }
    };
    let report = report_read(rt, alloc, &pieces, book, workers);
    drop(pieces);
    match report {
        Ok(report) => Ok(report),
        Err(fault) => Err(RunFault::from(fault)),
    }
}

/// The report of a stream that was read in pieces, by the book of its traces. If it has a fault, the book is of no use,
/// and the whole stream is checked for what that is.
fn report_read<R: Threads + Wait + Sync>(
    rt: &R,
    alloc: Global,
    pieces: &Pieces<'_>,
    book: Result<Book<'_>, AllocError>,
    workers: usize,
) -> Result<Report, CheckFault>
    requires { (1 ≤ workers) × (workers ≤ MOST_WORKERS) }
    ensures sound { IfOk result (λ _. stream_fault pieces.now ≡ None) }
    ensures text { IfOk result (λ report. IsReport (sources pieces.now) report.text.items) }
    ensures clean { IfOk result (λ report.
        SaysClean report.text.items ↔ (¬ HasViolation (sources pieces.now))) }
    ensures verdict { IfOk result (λ report. VerdictIs (sources pieces.now) report.verdict) }
    ensures fault { (fault : StreamFault) → result ≡ Err (CheckFault.Stream fault) →
        stream_fault pieces.now ≡ Some fault }
    ensures uneven { (number : ℕ) → result ≡ Err (CheckFault.Uneven number) →
        stream_fault pieces.now ≡ None }
{
    match pieces.traces() {
        Some(sources) => report_by(alloc, sources, book),
        None => {
            drop(book);
            report_whole(rt, alloc, pieces, workers)
        }
    }
}

/// The report of these traces, by a book that is to list them.
fn report_by(
    alloc: Global,
    traces: &[Source<'_>],
    book: Result<Book<'_>, AllocError>,
) -> Result<Report, CheckFault>
    requires { AreNumbered (map plain traces.now) }
    ensures text { IfOk result (λ report. IsReport (map plain traces.now) report.text.items) }
    ensures clean { IfOk result (λ report.
        SaysClean report.text.items ↔ (¬ HasViolation (map plain traces.now))) }
    ensures verdict { IfOk result (λ report. VerdictIs (map plain traces.now) report.verdict) }
    ensures fault { (fault : StreamFault) → result ≢ Err (CheckFault.Stream fault) }
{
    let book = book?;
    let report = report_compared(alloc, traces, &book);
    drop(book);
    report
}

/// The report of the book, once it lists these traces and no other.
fn report_compared(
    alloc: Global,
    traces: &[Source<'_>],
    book: &Book<'_>,
) -> Result<Report, CheckFault>
    requires { AreNumbered (map plain traces.now) }
    ensures text { IfOk result (λ report. IsReport (map plain traces.now) report.text.items) }
    ensures clean { IfOk result (λ report.
        SaysClean report.text.items ↔ (¬ HasViolation (map plain traces.now))) }
    ensures verdict { IfOk result (λ report. VerdictIs (map plain traces.now) report.verdict) }
    ensures fault { (fault : StreamFault) → result ≢ Err (CheckFault.Stream fault) }
{
    compared(alloc, traces, book)?;
    report_on(alloc, book)
}

/// The report of a stream whose pieces are put together first.
fn report_whole<R: Threads + Wait + Sync>(
    rt: &R,
    alloc: Global,
    pieces: &Pieces<'_>,
    workers: usize,
) -> Result<Report, CheckFault>
    requires { (1 ≤ workers) × (workers ≤ MOST_WORKERS) }
    ensures sound { IfOk result (λ _. stream_fault pieces.now ≡ None) }
    ensures text { IfOk result (λ report. IsReport (sources pieces.now) report.text.items) }
    ensures clean { IfOk result (λ report.
        SaysClean report.text.items ↔ (¬ HasViolation (sources pieces.now))) }
    ensures verdict { IfOk result (λ report. VerdictIs (sources pieces.now) report.verdict) }
    ensures fault { (fault : StreamFault) → result ≡ Err (CheckFault.Stream fault) →
        stream_fault pieces.now ≡ Some fault }
    ensures uneven { (number : ℕ) → result ≡ Err (CheckFault.Uneven number) →
        stream_fault pieces.now ≡ None }
{
    if pieces.len() > LONGEST_STREAM {
        return Err(CheckFault::Stream(StreamFault::TooLong));
    }
    let bytes = pieces.joined(alloc)?;
    report_of(rt, alloc, &bytes, workers, &NoGate)
}
