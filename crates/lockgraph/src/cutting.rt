//! `cut`: the stream of the pieces of traces.
ghost use Rattle.std.specs.Prelude.{◌≡◌, ◌≢◌, ◌↔◌, List, ℕ, Err, IfOk, IfSome, IsErr, OnOk, None, true, false};
ghost use Rattle.std.specs.Io.KnownBytes.{Appends};
ghost use Rattle.ld_trace.specs.declared.source.StreamFault.{StreamFault};
ghost use Rattle.ld_trace.specs.Sources.{sources, stream_fault};
ghost use Rattle.ld_io.specs.Transfer.{AppendsPart};
ghost use Rattle.ld_cut.specs.Cut.{IsCutOf};

use ld_check::Verdict;
use ld_commands::CutWords;
use ld_cut::cut;
use ld_files::{Fault, read_streams};
use ld_io::{Output, Std, send};
use ld_trace::{LONGEST_STREAM, StreamFault, split};
use std::alloc::{AllocError, Global};
use std::io;
use std::rt::Files;

/// Why there is no stream of pieces, or no whole one.
#[derive(Clone, Copy, Debug, PartialEq, Eq)]
pub enum CutFault {
    /// The stream has this fault, or its traces have no memory.
    Stream(StreamFault),
    /// The pieces are longer together than a stream may be.
    TooLong,
    /// A write or the flush failed.
    Write,
    /// A growth of memory was refused.
    Memory,
}

/// Writes the stream of the pieces of the traces in the files that are named.
///
/// # Errors
///
/// Those of `read_streams` and of `write_cut`.
pub fn answer_cut<'a, R: Files + io::Input + Print + AllocGlobal>(
    rt: &R,
    words: &CutWords<'a>,
) -> Result<Verdict, Fault<'a>> {
    let files = &words.given.files;
    let streams = read_streams(rt, files)?;
    let mut output = Std::new(io::writer(rt));
    match write_cut(rt.alloc(), &streams.bytes, words.lines, &mut output) {
        Ok(()) => Ok(Verdict::Clean),
        Err(CutFault::Stream(fault)) => {
            Err(Fault::Together(fault).of_stream(rt.alloc(), files, &streams.bytes))
        }
        Err(CutFault::TooLong) => Err(Fault::Pieces),
        Err(CutFault::Write) => Err(Fault::Write),
        Err(CutFault::Memory) => Err(Fault::Memory),
    }
}

/// The stream of the pieces of a stream's traces, each but the last piece of a trace with so many of its lines.
///
/// # Errors
///
/// `Stream` where the stream has a fault, or there is no memory for the list of its traces; `TooLong` where the pieces are longer together than a stream may be; and
/// `Memory` where a growth was refused.
fn cut_of(alloc: Global, bytes: &[u8], lines: usize) -> Result<Vec<u8>, CutFault>
    ensures cut { IfOk result (λ text. IsCutOf lines (sources bytes.now) text.items) }
    ensures fine { IfOk result (λ text. stream_fault text.items ≡ None) }
    ensures stream { IfSome (stream_fault bytes.now) (λ fault. result ≡ Err (CutFault.Stream fault)) }
    ensures memory { stream_fault bytes.now ≡ None → (fault : StreamFault) →
        result ≡ Err (CutFault.Stream fault) → fault ≡ StreamFault.Memory }
    ensures unwritten { result ≢ Err CutFault.Write }
{
    let traces = split(alloc, bytes)?;
    let text = cut(alloc, &traces, lines)?;
    if text.len() > LONGEST_STREAM {
        return Err(CutFault::TooLong);
    }
    Ok(text)
}

/// Writes the stream of the pieces of a stream's traces, and flushes it. No write or flush that fails is tried again.
///
/// It has the classes, the dependencies and the usage bits that the stream has, and just its rejected traces.
///
/// # Errors
///
/// `Write` exactly where a write or the flush failed: a first part of the text was written then, and after any other fault
/// nothing. The other faults are those of `cut_of`.
fn write_cut<O: Output>(
    alloc: Global,
    bytes: &[u8],
    lines: usize,
    output: &mut O,
) -> Result<(), CutFault>
    requires { O.write_failed output.old ≡ false }

    ensures ok { OnOk result ((text : List ℕ) × IsCutOf lines (sources bytes.now) text
        × (stream_fault text ≡ None)
        × Appends (O.held output.old) (O.held output.new) text) }
    ensures flushed { OnOk result (O.is_flushed output.new ≡ true) }
    ensures write { (result ≡ Err CutFault.Write) ↔ (O.write_failed output.new ≡ true) }
    ensures part { result ≡ Err CutFault.Write → (text : List ℕ)
        × IsCutOf lines (sources bytes.now) text
        × AppendsPart (O.held output.old) (O.held output.new) text }
    ensures nothing { IsErr result → result ≢ Err CutFault.Write → output.new ≡ output.old }
    ensures stream { IfSome (stream_fault bytes.now) (λ fault. result ≡ Err (CutFault.Stream fault)) }
{
    let text = cut_of(alloc, bytes, lines)?;
    match send(output, &text) {
        Ok(()) => Ok(()),
        Err(_) => Err(CutFault::Write),
    }
}

impl From<StreamFault> for CutFault {
    ghost use Rattle.lockgraph.specs.declared.cutting.CutFault.TheVariants.{Stream};

    ghost from_gives = { λ fault gives. gives ≡ Stream fault };

    fn from(fault: StreamFault) -> CutFault {
        CutFault::Stream(fault)
    }
}

impl From<AllocError> for CutFault {
    ghost use Rattle.lockgraph.specs.declared.cutting.CutFault.TheVariants.{Memory};

    ghost from_gives = { λ _ fault. fault ≡ Memory };

    fn from(_refusal: AllocError) -> CutFault {
        CutFault::Memory
    }
}
