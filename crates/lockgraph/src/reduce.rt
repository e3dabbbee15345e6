//! `reduce`: the stream of those traces in which something was first seen.
ghost use Rattle.std.specs.Prelude.{◌≡◌, ◌≢◌, ◌≤◌, ◌<◌, ◌↔◌, ℕ, All, AllPairs, List, Err, IfOk, IfSome, IsErr, OnErr, OnOk, Some, map, true, false};
ghost use Rattle.std.specs.Io.KnownBytes.{Appends};
ghost use Rattle.ld_trace.specs.declared.source.StreamFault.{StreamFault};
ghost use Rattle.ld_trace.specs.Sources.{sources, stream_fault};
ghost use Rattle.ld_io.specs.Transfer.{AppendsPart};
ghost use Rattle.ld_trace.specs.Sources.{PlainSource, plain};
ghost use Rattle.ld_origin.specs.Origin.{PlainHome};
ghost use Rattle.ld_reduce.specs.Written.{IsTrace};
ghost use Rattle.std.specs.List.Sorted.{IsPermutation};
ghost use Rattle.ld_files.specs.Homes.{AreWanted};
ghost use Rattle.lockgraph.specs.Faults.{fault_of_reduce};
ghost use Rattle.lockgraph.specs.Reduced.{IsReducedOf, IsReducedWith, verdict_of_reduced};

use crate::groups::{read_group, write_group};
use ld_check::{CheckFault, Checked, MOST_WORKERS, NoGate, Verdict, check};
use ld_commands::ReduceWords;
use ld_files::{Fault, Told, homes_wanted, read_streams};
use ld_io::{Output, Std, send};
use ld_places::Places;
use ld_reduce::reduction;
use ld_trace::StreamFault;
use std::alloc::{AllocError, Global};
use std::io;
use std::rt::Files;
use std::sync::Wait;
use std::thread::Threads;

/// What a reduced stream is to have beside the traces that show something.
#[derive(Clone, Copy)]
pub struct Keeping {
    /// The refused traces.
    pub refused: bool,
    /// Where the header of each trace stands, if the trace doesn't say where it comes from.
    pub from: bool,
}

impl Keeping {
    /// What these words ask for.
    fn of(words: &ReduceWords<'_>) -> Keeping {
        Keeping {
            refused: words.refused,
            from: words.from,
        }
    }
}

/// Why there is no reduced stream, or no whole one.
#[derive(Clone, Copy)]
pub enum ReduceFault {
    /// The stream has this fault.
    Stream(StreamFault),
    /// A write or the flush failed.
    Write,
    /// A growth of memory was refused.
    Memory,
    /// The workers' book doesn't list just the traces of the stream; this number is the least that
    /// tells so.
    Uneven(u64),
}

/// Writes the reduced stream of the files that are named. May wait.
///
/// # Errors
///
/// Those of `read_streams`, `write_reduced` and `answer_group`.
pub fn answer_reduce<'a, R: Files + io::Input + Print + AllocGlobal + Threads + Wait + Sync>(
    rt: &R,
    words: &ReduceWords<'a>,
) -> Result<Verdict, Fault<'a>> {
    if words.given.files.len() > 1 {
        return answer_group(rt, words);
    }
    let files = &words.given.files;
    let streams = read_streams(rt, files)?;
    let mut output = Std::new(io::writer(rt));
    let workers = words.given.workers;
    match write_reduced(
        rt,
        rt.alloc(),
        &streams.bytes,
        &streams.places,
        Keeping::of(words),
        &mut output,
        workers,
    ) {
        Ok(verdict) => Ok(verdict),
        Err(fault) => Err(fault_of_reduce(fault).of_stream(rt.alloc(), files, &streams.bytes)),
    }
}

/// The same of several files, which are read in turn, and are reduced in groups if all are too much.
///
/// # Errors
///
/// Those of `read_group` and of `write_group`.
fn answer_group<'a, R: Files + io::Input + Print + AllocGlobal + Threads + Wait + Sync>(
    rt: &R,
    words: &ReduceWords<'a>,
) -> Result<Verdict, Fault<'a>> {
    let keeping = Keeping::of(words);
    let workers = words.given.workers;
    let group = read_group(rt, &words.given.files, keeping, workers)?;
    let mut output = Std::new(io::writer(rt));
    match write_group(rt, rt.alloc(), &group, keeping, &mut output, workers) {
        Ok(verdict) => Ok(verdict),
        Err(fault) => Err(fault_of_reduce(fault)),
    }
}

/// Why there is no reduced stream.
pub fn fault_of_reduce<'a>(fault: ReduceFault) -> Fault<'a>
    ensures { result ≡ fault_of_reduce fault }
{
    match fault {
        ReduceFault::Stream(fault) => Fault::Together(fault),
        ReduceFault::Write => Fault::Write,
        ReduceFault::Memory => Fault::Memory,
        ReduceFault::Uneven(number) => Fault::Uneven(number),
    }
}

/// What it comes to that so many traces are refused, and are kept or not.
fn verdict_of_reduced(keep_refused: bool, refused: u64) -> Verdict
    ensures { result ≡ verdict_of_reduced keep_refused refused }
{
    if keep_refused || refused == 0 {
        Verdict::Clean
    } else {
        Verdict::Refused
    }
}

/// The reduced stream of the traces that a book lists, whose lines stand at these places.
fn reduction_in(
    alloc: Global,
    checked: &Checked<'_>,
    places: &Places<'_>,
    keeping: Keeping,
) -> Result<Told, ReduceFault>
    requires { All IsTrace checked.now.book }
    ensures memory { OnErr result (result ≡ Err ReduceFault.Memory) }
    ensures reduced { IfOk result (λ reduced. (homes : List PlainHome)
        × AreWanted keeping.from places.now (map plain checked.now.sources.items) homes
        × (in_order : List PlainSource) × IsPermutation checked.now.book in_order
        × AllPairs (λ a b. a.number < b.number) in_order
        × IsReducedWith keeping.refused homes in_order reduced.text.items reduced.verdict) }
{
    let homes = homes_wanted(alloc, places, &checked.sources, keeping.from)?;
    let text = reduction(alloc, &checked.book, keeping.refused, &homes)?;
    let verdict = verdict_of_reduced(keeping.refused, checked.book.totals().refused);
    Ok(Told { text, verdict })
}

/// The reduced stream of a stream, whose traces that many workers read at once. May wait.
///
/// # Errors
///
/// `Stream` exactly where the stream has a fault, whatever memory there is; `Memory` where a growth was
/// refused; and `Uneven` where the workers' book isn't that of the stream.
fn reduction_of<R: Threads + Wait + Sync>(
    rt: &R,
    alloc: Global,
    bytes: &[u8],
    places: &Places<'_>,
    keeping: Keeping,
    workers: usize,
) -> Result<Told, ReduceFault>
    requires { (1 ≤ workers) × (workers ≤ MOST_WORKERS) }
    ensures reduced { IfOk result (λ reduced. IsReducedOf keeping places.now
        (sources bytes.now) reduced.text.items reduced.verdict) }
    ensures stream { IfSome (stream_fault bytes.now) (λ fault.
        result ≡ Err (ReduceFault.Stream fault)) }
    ensures sound { (fault : StreamFault) → result ≡ Err (ReduceFault.Stream fault) →
        stream_fault bytes.now ≡ Some fault }
    ensures unwritten { result ≢ Err ReduceFault.Write }
{
    let checked = check(rt, alloc, bytes, workers, &NoGate)?;
    let reduced = reduction_in(alloc, &checked, places, keeping);
    drop(checked);
    reduced
}

/// Writes the reduced stream of a stream, whose traces that many workers read at once, and flushes it. No
/// write or flush that fails is tried again. May wait.
///
/// It has the violations that the stream has, and joined with the reduced stream of another those that both
/// streams have together. Reduced again it is the same, byte for byte.
///
/// # Errors
///
/// `Write` exactly where a write or the flush failed: a first part of the text was written then, and
/// after any other fault nothing. The other faults are those of `reduction_of`.
fn write_reduced<O: Output, R: Threads + Wait + Sync>(
    rt: &R,
    alloc: Global,
    bytes: &[u8],
    places: &Places<'_>,
    keeping: Keeping,
    output: &mut O,
    workers: usize,
) -> Result<Verdict, ReduceFault>
    requires sound { O.write_failed output.old ≡ false }
    requires workers { (1 ≤ workers) × (workers ≤ MOST_WORKERS) }

    ensures ok { IfOk result (λ verdict. (text : List ℕ)
        × IsReducedOf keeping places.now (sources bytes.now) text verdict
        × Appends (O.held output.old) (O.held output.new) text) }
    ensures flushed { OnOk result (O.is_flushed output.new ≡ true) }
    ensures write { (result ≡ Err ReduceFault.Write) ↔ (O.write_failed output.new ≡ true) }
    ensures part { result ≡ Err ReduceFault.Write → (text : List ℕ) × (verdict : Verdict)
        × IsReducedOf keeping places.now (sources bytes.now) text verdict
        × AppendsPart (O.held output.old) (O.held output.new) text }
    ensures nothing { IsErr result → result ≢ Err ReduceFault.Write → output.new ≡ output.old }

    ensures stream { IfSome (stream_fault bytes.now) (λ fault.
        result ≡ Err (ReduceFault.Stream fault)) }
    ensures stream_sound { (fault : StreamFault) → result ≡ Err (ReduceFault.Stream fault) →
        stream_fault bytes.now ≡ Some fault }
{
    let reduced = reduction_of(rt, alloc, bytes, places, keeping, workers)?;
    match send(output, &reduced.text) {
        Ok(()) => Ok(reduced.verdict),
        Err(_) => Err(ReduceFault::Write),
    }
}

impl From<CheckFault> for ReduceFault {
    ghost use Rattle.lockgraph.specs.Faults.{reduce_fault_of_check};

    ghost from_gives = { λ fault gives. gives ≡ reduce_fault_of_check fault };

    fn from(fault: CheckFault) -> ReduceFault {
        match fault {
            CheckFault::Stream(fault) => ReduceFault::Stream(fault),
            CheckFault::Memory => ReduceFault::Memory,
            CheckFault::Uneven(number) => ReduceFault::Uneven(number),
        }
    }
}

impl From<AllocError> for ReduceFault {
    ghost use Rattle.lockgraph.specs.declared.reduce.ReduceFault.TheVariants.{Memory};

    ghost from_gives = { λ _ fault. fault ≡ Memory };

    fn from(_refusal: AllocError) -> ReduceFault {
        ReduceFault::Memory
    }
}
