//! `explain`: why traces are refused, and what stands behind the violations of the others.
ghost use Rattle.std.specs.Prelude.{◌≡◌, ◌≤◌, Err, IfOk, IfSome, false, flat_map, true};
ghost use Rattle.ld_colours.specs.Colours.{styled};
ghost use Rattle.ld_trace.specs.Lines.{lines};
ghost use Rattle.ld_trace.specs.Sources.{sources, stream_fault};
ghost use Rattle.ld_check.specs.OfReport.Verdict.{VerdictIs};
ghost use Rattle.ld_files.specs.declared.fault.Fault.TheVariants.{Together};

use ld_check::{Checked, MOST_WORKERS, NoGate, Verdict, check, report_in, verdict_of};
use ld_colours::coloured;
use ld_commands::ExplainWords;
use ld_explain::{Choice, chosen, explain, faults};
use ld_files::{Fault, Told, find_class, maps_in, maps_of, read_maps, read_streams, write_told};
use ld_io::Std;
use ld_places::{Places, ShownPlaces};
use ld_source_map::Maps;
use std::alloc::{AllocError, Global};
use std::io;
use std::rt::Files;
use std::sync::Wait;
use std::thread::Threads;

/// Writes what stands behind the violations of the files that are named, in colours if these are to be shown. May wait.
///
/// # Errors
///
/// Those of `read_maps`, `maps_in`, `read_streams`, `explained_of`, `shown_of` and `write_told`.
pub fn answer_explain<'a, R: Files + io::Input + Print + AllocGlobal + Threads + Wait + Sync>(
    rt: &R,
    words: &ExplainWords<'a>,
    colours: bool,
) -> Result<Verdict, Fault<'a>> {
    let files = &words.mapped.given.files;
    let texts = read_maps(rt, &words.mapped.maps, files)?;
    // A mistake in them is told before the traces are read.
    let maps = maps_in(rt.alloc(), &texts)?;
    let streams = read_streams(rt, files)?;
    let maps = maps_of(rt.alloc(), &texts, maps, files, &streams)?;
    let choice = Choice {
        kind: words.kind,
        class: words.class,
        most: words.most,
    };
    let told = explained_of(
        rt,
        rt.alloc(),
        &streams.bytes,
        &streams.places,
        &maps,
        &choice,
        words.mapped.given.workers,
    );
    let told = match told {
        Ok(told) => shown_of(rt.alloc(), told, colours)?,
        Err(fault) => return Err(fault.of_stream(rt.alloc(), files, &streams.bytes)),
    };
    let mut output = Std::new(io::writer(rt));
    write_told(&mut output, &told)
}

/// What is told, with the colours of its text if these are to be shown.
///
/// # Errors
///
/// `AllocError` if a growth of memory was refused.
fn shown_of(alloc: Global, told: Told, colours: bool) -> Result<Told, AllocError>
    ensures verdict { IfOk result (λ shown. shown.verdict ≡ told.verdict) }
    ensures plain { colours ≡ false → IfOk result (λ shown. shown ≡ told) }
    ensures coloured { colours ≡ true → IfOk result (λ shown. shown.text.items ≡ flat_map styled (lines told.text.items)) }
{
    if !colours {
        return Ok(told);
    }
    let text = coloured(alloc, &told.text)?;
    let verdict = told.verdict;
    Ok(Told { text, verdict })
}

/// What stands behind the violations of these streams, whose traces that many workers read at once. May wait.
///
/// # Errors
///
/// `Together` exactly where they are no stream together, whatever memory there is; `NoClass` where no trace acquires the
/// class that is named; `Memory` where a growth was refused; and `Uneven` where the workers' book isn't that of the
/// stream.
fn explained_of<'a, R: Threads + Wait + Sync>(
    rt: &R,
    alloc: Global,
    bytes: &[u8],
    places: &Places<'_>,
    maps: &Maps<'_>,
    choice: &Choice<'_>,
    workers: usize,
) -> Result<Told, Fault<'a>>
    requires { (1 ≤ workers) × (workers ≤ MOST_WORKERS) }
    ensures verdict { IfOk result (λ told. VerdictIs (sources bytes.now) told.verdict) }
    ensures stream { IfSome (stream_fault bytes.now) (λ fault. result ≡ Err (Together fault)) }
{
    let checked = check(rt, alloc, bytes, workers, &NoGate)?;
    let told = explained_in(alloc, &checked, places, maps, choice);
    drop(checked);
    told
}

/// What stands behind the violations of the traces that a book lists.
fn explained_in<'a>(
    alloc: Global,
    checked: &Checked<'_>,
    places: &Places<'_>,
    maps: &Maps<'_>,
    choice: &Choice<'_>,
) -> Result<Told, Fault<'a>>
    ensures { IfOk result (λ told. VerdictIs checked.now.book told.verdict) }
{
    if let Some(word) = choice.class {
        find_class(alloc, &checked.book, word)?;
    }
    let report = report_in(alloc, &checked.book)?;
    let text = text_in(alloc, checked, &report, places, maps, choice)?;
    let verdict = verdict_of(&checked.book);
    Ok(Told { text, verdict })
}

/// The text on them, of which this is the report.
fn text_in(
    alloc: Global,
    checked: &Checked<'_>,
    report: &[u8],
    places: &Places<'_>,
    maps: &Maps<'_>,
    choice: &Choice<'_>,
) -> Result<Vec<u8>, AllocError> {
    let faults = faults(alloc, &checked.book, choice)?;
    let violations = chosen(alloc, &checked.book, report, choice)?;
    let sources = checked.sources.as_slice();
    let shown = ShownPlaces {
        files: places,
        sources,
    };
    explain(
        alloc,
        &checked.book,
        &faults,
        &violations,
        choice.most,
        sources,
        &shown,
        maps,
    )
}
