//! `check`: lockcheck's report of some files.
ghost use Rattle.std.specs.Prelude.{◌≡◌, ◌≢◌, ◌≤◌, ◌↔◌, ℕ, List, Err, IfOk, IfSome, IsErr, OnOk, Some, false, true};
ghost use Rattle.std.specs.Io.KnownBytes.{Appends};
ghost use Rattle.ld_trace.specs.declared.source.StreamFault.{StreamFault};
ghost use Rattle.ld_trace.specs.Sources.{sources, stream_fault};
ghost use Rattle.ld_io.specs.Transfer.{AppendsPart};
ghost use Rattle.ld_check.specs.OfReport.OfBook.Violations.{HasViolation};
ghost use Rattle.ld_check.specs.OfReport.Report.{IsReport, SaysClean};
ghost use Rattle.ld_check.specs.OfReport.Verdict.{VerdictIs};
ghost use Rattle.ld_files.specs.declared.fault.Fault.TheVariants.{Together, Write};

use ld_check::{MOST_WORKERS, NoGate, Verdict, report_of};
use ld_commands::CheckWords;
use ld_files::{Fault, read_streams};
use ld_io::{Output, Std, send};
use std::alloc::Global;
use std::io;
use std::rt::Files;
use std::sync::Wait;
use std::thread::Threads;

/// Writes the report of the files that are named. May wait.
///
/// # Errors
///
/// Those of `read_streams` and of `write_report`.
pub fn answer_check<'a, R: Files + io::Input + Print + AllocGlobal + Threads + Wait + Sync>(
    rt: &R,
    words: &CheckWords<'a>,
) -> Result<Verdict, Fault<'a>> {
    let files = &words.given.files;
    let streams = read_streams(rt, files)?;
    let mut output = Std::new(io::writer(rt));
    let workers = words.given.workers;
    match write_report(rt, rt.alloc(), &streams.bytes, &mut output, workers) {
        Ok(verdict) => Ok(verdict),
        Err(fault) => Err(fault.of_stream(rt.alloc(), files, &streams.bytes)),
    }
}

/// Writes and flushes the report of a stream, whose traces that many workers read at once: what lockcheck writes of
/// the same bytes. No write or flush that fails is tried again. May wait.
///
/// # Errors
///
/// `Write` exactly where a write or the flush failed: a first part of the report was written then, and after any
/// other fault nothing. `Together` exactly where the bytes are no stream, whatever memory there is; `Memory` where a
/// growth was refused; and `Uneven` where the workers' book isn't that of the stream.
fn write_report<'a, O: Output, R: Threads + Wait + Sync>(
    rt: &R,
    alloc: Global,
    bytes: &[u8],
    output: &mut O,
    workers: usize,
) -> Result<Verdict, Fault<'a>>
    requires sound { O.write_failed output.old ≡ false }
    requires workers { (1 ≤ workers) × (workers ≤ MOST_WORKERS) }

    ensures ok { IfOk result (λ verdict. (text : List ℕ) × IsReport (sources bytes.now) text
        × Appends (O.held output.old) (O.held output.new) text
        × VerdictIs (sources bytes.now) verdict) }
    ensures clean { OnOk result ((text : List ℕ) × IsReport (sources bytes.now) text
        × Appends (O.held output.old) (O.held output.new) text
        × (SaysClean text ↔ (¬ HasViolation (sources bytes.now)))) }
    ensures flushed { OnOk result (O.is_flushed output.new ≡ true) }
    ensures write { (result ≡ Err Write) ↔ (O.write_failed output.new ≡ true) }
    ensures part { result ≡ Err Write → (text : List ℕ) × IsReport (sources bytes.now) text
        × AppendsPart (O.held output.old) (O.held output.new) text }
    ensures nothing { IsErr result → result ≢ Err Write → output.new ≡ output.old }

    ensures stream { IfSome (stream_fault bytes.now) (λ fault. result ≡ Err (Together fault)) }
    ensures stream_sound { (fault : StreamFault) → result ≡ Err (Together fault) →
        stream_fault bytes.now ≡ Some fault }
{
    match report_of(rt, alloc, bytes, workers, &NoGate) {
        Ok(report) => match send(output, &report.text) {
            Ok(()) => Ok(report.verdict),
            Err(_) => Err(Fault::Write),
        },
        Err(fault) => Err(Fault::from(fault)),
    }
}
