//! What `list` and `stats` have in common: a text on the traces of some files.
ghost use Rattle.std.specs.Prelude.{◌≡◌, ◌≢◌, ◌≤◌, Err, IfOk, IfSome, Some, length};
ghost use Rattle.ld_check.specs.OfReport.OfBook.Totals.{refused_count};
ghost use Rattle.ld_trace.specs.declared.source.StreamFault.{StreamFault};
ghost use Rattle.ld_trace.specs.Sources.{stream_fault};
ghost use Rattle.ld_files.specs.declared.fault.Fault.TheVariants.{Together, Write};
ghost use Rattle.ld_texts.specs.List.{IsClassList, list_classes};
ghost use Rattle.ld_texts.specs.Stats.{IsStats};
ghost use Rattle.ld_texts.specs.declared.wanted.Wanted.TheVariants.{Stats};
ghost use Rattle.lockgraph.specs.declared.shown.Topic.TheVariants.{Whole};
ghost use Rattle.lockgraph.specs.Shown.{verdict_of_read};

use crate::occurrences::occurrences_in;
use ld_check::{Book, Checked, MOST_WORKERS, NoGate, Verdict, check};
use ld_commands::{Between, Given};
use ld_files::{Fault, Streams, Told, find_class, read_streams, write_told};
use ld_io::Std;
use ld_places::{Places, ShownPlaces};
use ld_texts::{Listing, Wanted, text_of};
use std::alloc::Global;
use std::io;
use std::rt::Files;
use std::sync::Wait;
use std::thread::Threads;

/// What is asked of some traces.
#[derive(Clone, Copy, Debug, PartialEq, Eq)]
pub enum Topic<'a> {
    /// A text on all that they show.
    Whole(Wanted<'a>),
    /// Which of them show the dependency between these classes.
    Dependency(Between<'a>),
}

/// Writes what is asked of the files that are named. May wait.
///
/// # Errors
///
/// Those of `read_streams`, `shown_of` and `write_told`.
pub fn answer_shown<'a, R: Files + io::Input + Print + AllocGlobal + Threads + Wait + Sync>(
    rt: &R,
    given: &Given<'a>,
    topic: Topic<'a>,
) -> Result<Verdict, Fault<'a>> {
    let streams = read_streams(rt, &given.files)?;
    let mut output = Std::new(io::writer(rt));
    match shown_of(rt, rt.alloc(), &streams, topic, given.workers) {
        Ok(told) => write_told(&mut output, &told),
        Err(fault) => Err(fault.of_stream(rt.alloc(), &given.files, &streams.bytes)),
    }
}

/// What is asked of these streams, whose traces that many workers read at once. May wait.
///
/// # Errors
///
/// `Together` exactly where they are no stream together, whatever memory there is; `NoClass` where no trace acquires the
/// class that is named; `Memory` where a growth was refused; and `Uneven` where the workers' book isn't that of the
/// stream.
fn shown_of<'a, R: Threads + Wait + Sync>(
    rt: &R,
    alloc: Global,
    streams: &Streams<'_>,
    topic: Topic<'_>,
    workers: usize,
) -> Result<Told, Fault<'a>>
    requires { (1 ≤ workers) × (workers ≤ MOST_WORKERS) }
    ensures stream { IfSome (stream_fault streams.now.bytes.items) (λ fault.
        result ≡ Err (Together fault)) }
    ensures sound { (fault : StreamFault) → result ≡ Err (Together fault) →
        stream_fault streams.now.bytes.items ≡ Some fault }
    ensures unwritten { result ≢ Err Write }
{
    match check(rt, alloc, &streams.bytes, workers, &NoGate) {
        Ok(checked) => {
            let told = shown_in(rt, alloc, &checked, &streams.places, topic, workers);
            drop(checked);
            told
        }
        Err(fault) => Err(Fault::from(fault)),
    }
}

/// What is asked of the traces that a book lists.
fn shown_in<'f, R: Threads + Sync>(
    rt: &R,
    alloc: Global,
    checked: &Checked<'_>,
    places: &Places<'_>,
    topic: Topic<'_>,
    threads: usize,
) -> Result<Told, Fault<'f>>
    ensures verdict { IfOk result (λ told. told.verdict ≡ verdict_of_read (refused_count checked.now.book)) }
    ensures classes { topic.entry ≡ Whole list_classes → IfOk result (λ told.
        IsClassList checked.now.book told.text.items) }
    ensures stats { topic.entry ≡ Whole Stats → IfOk result (λ told.
        IsStats checked.now.book (length places.now) told.text.items) }
    ensures unwritten { result ≢ Err Write }
    ensures sound { (fault : StreamFault) → result ≢ Err (Together fault) }
{
    let shown = ShownPlaces {
        files: places,
        sources: checked.sources.as_slice(),
    };
    let text = match topic {
        Topic::Whole(wanted) => whole_text(rt, alloc, &checked.book, &shown, wanted, threads)?,
        Topic::Dependency(between) => occurrences_in(alloc, &checked.book, &shown, between)?,
    };
    let verdict = verdict_of_read(checked.book.totals().refused);
    Ok(Told { text, verdict })
}

/// The text on all that a book shows.
fn whole_text<'f, R: Threads + Sync>(
    rt: &R,
    alloc: Global,
    book: &Book<'_>,
    shown: &ShownPlaces<'_>,
    wanted: Wanted<'_>,
    threads: usize,
) -> Result<Vec<u8>, Fault<'f>>
    ensures classes { wanted.entry ≡ list_classes → IfOk result (λ text. IsClassList book.now text.items) }
    ensures stats { wanted.entry ≡ Stats → IfOk result (λ text.
        IsStats book.now (length shown.now.files.now) text.items) }
    ensures unwritten { result ≢ Err Write }
    ensures sound { (fault : StreamFault) → result ≢ Err (Together fault) }
{
    if let Wanted::List(Listing::Class(name)) = wanted {
        find_class(alloc, book, name.as_bytes())?;
    }
    Ok(text_of(rt, alloc, book, shown, wanted, threads)?)
}

/// What it comes to that so many traces are refused, where no violation is told.
pub fn verdict_of_read(refused: u64) -> Verdict
    ensures { result ≡ verdict_of_read refused }
{
    if refused > 0 {
        Verdict::Refused
    } else {
        Verdict::Clean
    }
}
