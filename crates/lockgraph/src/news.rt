//! `new`: the violations of some traces that no known text says.
ghost use Rattle.std.specs.Prelude.{◌≡◌, ◌≢◌, ◌≤◌, ◌↔◌, ℕ, List, Err, IfOk, IfSome, IsErr, None, OnOk, Some, map, true, false};
ghost use Rattle.std.specs.Io.KnownBytes.{Appends};
ghost use Rattle.ld_trace.specs.declared.source.StreamFault.{StreamFault};
ghost use Rattle.ld_trace.specs.Sources.{plain, sources, stream_fault};
ghost use Rattle.ld_io.specs.Transfer.{AppendsPart};
ghost use Rattle.ld_baseline.specs.Known.{unknown_line};
ghost use Rattle.lockgraph.specs.Faults.{fault_of_news};
ghost use Rattle.lockgraph.specs.News.{IsNewsWith, IsToldOf, IsToldWith, verdict_of_new};

use crate::fixed::fixed_in;
use ld_baseline::{SelectFault, new_report};
use ld_check::{CheckFault, Checked, MOST_WORKERS, NoGate, Verdict, check, report_in};
use ld_commands::NewWords;
use ld_files::{Fault, Told, read_known, read_streams, remarks, write_comments};
use ld_io::{Output, Std, send};
use ld_places::{Places, ShownPlaces};
use ld_trace::StreamFault;
use std::alloc::{AllocError, Global};
use std::io;
use std::rt::Files;
use std::sync::Wait;
use std::thread::Threads;

/// What is to be told of some traces and a known text.
#[derive(Clone, Copy)]
pub enum Telling {
    /// What is new: what no known line says.
    New,
    /// What is known and gone: the known lines that match nothing.
    Gone,
}

impl Telling {
    /// What these words ask for.
    fn of(words: &NewWords<'_>) -> Telling {
        if words.fixed {
            Telling::Gone
        } else {
            Telling::New
        }
    }
}

/// Why it isn't told what is new.
#[derive(Clone, Copy)]
pub enum NewsFault {
    /// The stream has this fault.
    Stream(StreamFault),
    /// This line of the known text, counted from 1, says something and is no line of a report.
    UnknownLine(u64),
    /// A write or the flush failed.
    Write,
    /// A growth of memory was refused.
    Memory,
    /// The workers' book doesn't list just the traces of the stream; this number is the least that
    /// tells so.
    Uneven(u64),
}

/// Writes what is new in the files that are named, or what is known and gone. May wait.
///
/// # Errors
///
/// Those of `read_known`, of `read_streams` and of `write_news`.
pub fn answer_new<'a, R: Files + io::Input + Print + AllocGlobal + Threads + Wait + Sync>(
    rt: &R,
    words: &NewWords<'a>,
) -> Result<Verdict, Fault<'a>> {
    // A mistake in it is told before the traces are read.
    let known = read_known(rt, words.known)?;
    let files = &words.given.files;
    let streams = read_streams(rt, files)?;
    let mut output = Std::new(io::writer(rt));
    match write_news(
        rt,
        rt.alloc(),
        Telling::of(words),
        &streams.bytes,
        &streams.places,
        &known,
        &mut output,
        words.given.workers,
    ) {
        Ok(verdict) => Ok(verdict),
        Err(fault) => {
            let fault = fault_of_news(words.known, fault);
            Err(fault.of_stream(rt.alloc(), files, &streams.bytes))
        }
    }
}

/// Why it isn't told what is new beside the known text of this name.
pub(crate) fn fault_of_news<'a>(known: &'a str, fault: NewsFault) -> Fault<'a>
    ensures { result ≡ fault_of_news known.entry fault }
{
    match fault {
        NewsFault::Stream(fault) => Fault::Together(fault),
        NewsFault::UnknownLine(line) => Fault::UnknownLine(known, line),
        NewsFault::Write => Fault::Write,
        NewsFault::Memory => Fault::Memory,
        NewsFault::Uneven(number) => Fault::Uneven(number),
    }
}

/// Writes what is new in a stream, whose traces that many workers read at once, or what is known and gone; and flushes
/// it. No write or flush that fails is tried again. May wait.
///
/// # Errors
///
/// `Write` exactly where a write or the flush failed: a first part of the text was written then, and
/// after any other fault nothing. The other faults are those of `news_of`.
fn write_news<O: Output, R: Threads + Wait + Sync>(
    rt: &R,
    alloc: Global,
    telling: Telling,
    bytes: &[u8],
    places: &Places<'_>,
    known: &[u8],
    output: &mut O,
    workers: usize,
) -> Result<Verdict, NewsFault>
    requires sound { O.write_failed output.old ≡ false }
    requires workers { (1 ≤ workers) × (workers ≤ MOST_WORKERS) }

    ensures ok { IfOk result (λ verdict. (text : List ℕ)
        × IsToldOf telling places.now (sources bytes.now) known.now text verdict
        × Appends (O.held output.old) (O.held output.new) text) }
    ensures flushed { OnOk result (O.is_flushed output.new ≡ true) }
    ensures write { (result ≡ Err NewsFault.Write) ↔ (O.write_failed output.new ≡ true) }
    ensures part { result ≡ Err NewsFault.Write → (text : List ℕ) × (verdict : Verdict)
        × IsToldOf telling places.now (sources bytes.now) known.now text verdict
        × AppendsPart (O.held output.old) (O.held output.new) text }
    ensures nothing { IsErr result → result ≢ Err NewsFault.Write → output.new ≡ output.old }

    ensures stream { IfSome (stream_fault bytes.now) (λ fault.
        result ≡ Err (NewsFault.Stream fault)) }
    ensures stream_sound { (fault : StreamFault) → result ≡ Err (NewsFault.Stream fault) →
        stream_fault bytes.now ≡ Some fault }
    ensures known { OnOk result (unknown_line known.now ≡ None) }
    ensures unknown { (line : ℕ) → result ≡ Err (NewsFault.UnknownLine line) →
        unknown_line known.now ≡ Some line }
{
    let news = news_of(rt, alloc, telling, bytes, places, known, workers)?;
    match send(output, &news.text) {
        Ok(()) => Ok(news.verdict),
        Err(_) => Err(NewsFault::Write),
    }
}

/// What is new in a stream, whose traces that many workers read at once and whose lines stand at these places, or what
/// is known and gone. May wait.
///
/// # Errors
///
/// `Stream` exactly where the stream has a fault, whatever memory there is; `UnknownLine` where the known
/// text has a line that is none of a report; `Memory` where a growth was refused; and `Uneven` where the
/// workers' book isn't that of the stream.
fn news_of<R: Threads + Wait + Sync>(
    rt: &R,
    alloc: Global,
    telling: Telling,
    bytes: &[u8],
    places: &Places<'_>,
    known: &[u8],
    workers: usize,
) -> Result<Told, NewsFault>
    requires { (1 ≤ workers) × (workers ≤ MOST_WORKERS) }
    ensures news { IfOk result (λ news. IsToldOf telling places.now (sources bytes.now)
        known.now news.text.items news.verdict) }
    ensures stream { IfSome (stream_fault bytes.now) (λ fault.
        result ≡ Err (NewsFault.Stream fault)) }
    ensures sound { (fault : StreamFault) → result ≡ Err (NewsFault.Stream fault) →
        stream_fault bytes.now ≡ Some fault }
    ensures known { OnOk result (unknown_line known.now ≡ None) }
    ensures unknown { (line : ℕ) → result ≡ Err (NewsFault.UnknownLine line) →
        unknown_line known.now ≡ Some line }
    ensures unwritten { result ≢ Err NewsFault.Write }
{
    let checked = check(rt, alloc, bytes, workers, &NoGate)?;
    let news = told_in(alloc, telling, &checked, places, known);
    drop(checked);
    news
}

/// What is new in the traces that a book lists, or what is known and gone.
fn told_in(
    alloc: Global,
    telling: Telling,
    checked: &Checked<'_>,
    places: &Places<'_>,
    known: &[u8],
) -> Result<Told, NewsFault>
    ensures news { IfOk result (λ news. IsToldWith telling places.now
        (map plain checked.now.sources.items) checked.now.book known.now news.text.items news.verdict) }
    ensures known { OnOk result (unknown_line known.now ≡ None) }
    ensures unknown { (line : ℕ) → result ≡ Err (NewsFault.UnknownLine line) →
        unknown_line known.now ≡ Some line }
    ensures stream { (fault : StreamFault) → result ≢ Err (NewsFault.Stream fault) }
    ensures unwritten { result ≢ Err NewsFault.Write }
{
    match telling {
        Telling::New => news_in(alloc, checked, places, known),
        Telling::Gone => fixed_in(alloc, &checked.book, known),
    }
}

/// What is new in the traces that a book lists: their report without the lines of violations that a line of the known
/// text says too; and where they are of several files, or a trace says where it comes from, comments that say where the
/// lines are shown that it names.
fn news_in(
    alloc: Global,
    checked: &Checked<'_>,
    places: &Places<'_>,
    known: &[u8],
) -> Result<Told, NewsFault>
    ensures news { IfOk result (λ news. IsNewsWith places.now (map plain checked.now.sources.items)
        checked.now.book known.now news.text.items news.verdict) }
    ensures known { OnOk result (unknown_line known.now ≡ None) }
    ensures unknown { (line : ℕ) → result ≡ Err (NewsFault.UnknownLine line) →
        unknown_line known.now ≡ Some line }
    ensures stream { (fault : StreamFault) → result ≢ Err (NewsFault.Stream fault) }
    ensures unwritten { result ≢ Err NewsFault.Write }
{
    let report = report_in(alloc, &checked.book)?;
    let new = new_report(alloc, &report, known)?;
    let verdict = verdict_of_new(new.count, checked.book.totals().refused);
    let mut text = new.text;
    let shown = ShownPlaces {
        files: places,
        sources: checked.sources.as_slice(),
    };
    let remarks = remarks(alloc, &shown, &text)?;
    write_comments(&mut text, &remarks)?;
    Ok(Told { text, verdict })
}

/// What it comes to that so many violations are new and so many traces are refused.
pub(crate) fn verdict_of_new(count: u64, refused: u64) -> Verdict
    ensures { result ≡ verdict_of_new count refused }
{
    if count > 0 {
        Verdict::Violations
    } else if refused > 0 {
        Verdict::Refused
    } else {
        Verdict::Clean
    }
}

impl From<CheckFault> for NewsFault {
    ghost use Rattle.lockgraph.specs.Faults.{news_fault_of_check};

    ghost from_gives = { λ fault gives. gives ≡ news_fault_of_check fault };

    fn from(fault: CheckFault) -> NewsFault {
        match fault {
            CheckFault::Stream(fault) => NewsFault::Stream(fault),
            CheckFault::Memory => NewsFault::Memory,
            CheckFault::Uneven(number) => NewsFault::Uneven(number),
        }
    }
}

impl From<SelectFault> for NewsFault {
    ghost use Rattle.lockgraph.specs.Faults.{news_fault_of_select};

    ghost from_gives = { λ fault gives. gives ≡ news_fault_of_select fault };

    fn from(fault: SelectFault) -> NewsFault {
        match fault {
            SelectFault::UnknownLine(line) => NewsFault::UnknownLine(line),
            SelectFault::Memory => NewsFault::Memory,
        }
    }
}

impl From<AllocError> for NewsFault {
    ghost use Rattle.lockgraph.specs.declared.news.NewsFault.TheVariants.{Memory};

    ghost from_gives = { λ _ fault. fault ≡ Memory };

    fn from(_refusal: AllocError) -> NewsFault {
        NewsFault::Memory
    }
}
