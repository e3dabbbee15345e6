//! `dot`: a graph of the classes and dependencies of some traces.
ghost use Rattle.std.specs.Prelude.{◌≡◌, ◌≤◌, Err, IfOk, IfSome};
ghost use Rattle.ld_trace.specs.Sources.{sources, stream_fault};
ghost use Rattle.ld_check.specs.OfReport.Verdict.{VerdictIs};
ghost use Rattle.ld_files.specs.declared.fault.Fault.TheVariants.{Together};

use ld_check::{Checked, MOST_WORKERS, NoGate, Verdict, check, verdict_of};
use ld_commands::DotWords;
use ld_explain::{Drawn, dot};
use ld_files::{Fault, Told, find_class, maps_in, maps_of, read_maps, read_streams, write_told};
use ld_io::Std;
use ld_places::{Places, ShownPlaces};
use ld_source_map::Maps;
use std::alloc::Global;
use std::io;
use std::rt::Files;
use std::sync::Wait;
use std::thread::Threads;

/// Writes a graph of the files that are named. May wait.
///
/// # Errors
///
/// Those of `read_maps`, `maps_in`, `read_streams`, `maps_of`, `drawn_of` and `write_told`.
pub fn answer_dot<'a, R: Files + io::Input + Print + AllocGlobal + Threads + Wait + Sync>(
    rt: &R,
    words: &DotWords<'a>,
) -> Result<Verdict, Fault<'a>> {
    let files = &words.mapped.given.files;
    let texts = read_maps(rt, &words.mapped.maps, files)?;
    // A mistake in them is told before the traces are read.
    let maps = maps_in(rt.alloc(), &texts)?;
    let streams = read_streams(rt, files)?;
    let maps = maps_of(rt.alloc(), &texts, maps, files, &streams)?;
    let told = drawn_of(
        rt,
        rt.alloc(),
        &streams.bytes,
        &streams.places,
        &maps,
        drawn_by(words),
        words.mapped.given.workers,
    );
    let mut output = Std::new(io::writer(rt));
    match told {
        Ok(told) => write_told(&mut output, &told),
        Err(fault) => Err(fault.of_stream(rt.alloc(), files, &streams.bytes)),
    }
}

/// What the words ask to draw.
fn drawn_by<'a>(words: &DotWords<'a>) -> Drawn<'a> {
    match words.around {
        Some(around) => Drawn::Around {
            name: around.name,
            steps: around.steps,
        },
        None if words.all => Drawn::All,
        None => Drawn::Violations,
    }
}

/// A graph of these streams, whose traces that many workers read at once. May wait.
///
/// # Errors
///
/// `Together` exactly where they are no stream together, whatever memory there is; `NoClass` where no trace acquires the
/// class that is named; `Memory` where a growth was refused; and `Uneven` where the workers' book isn't that of the
/// stream.
fn drawn_of<'a, R: Threads + Wait + Sync>(
    rt: &R,
    alloc: Global,
    bytes: &[u8],
    places: &Places<'_>,
    maps: &Maps<'_>,
    drawn: Drawn<'_>,
    workers: usize,
) -> Result<Told, Fault<'a>>
    requires { (1 ≤ workers) × (workers ≤ MOST_WORKERS) }
    ensures verdict { IfOk result (λ told. VerdictIs (sources bytes.now) told.verdict) }
    ensures stream { IfSome (stream_fault bytes.now) (λ fault. result ≡ Err (Together fault)) }
{
    let checked = check(rt, alloc, bytes, workers, &NoGate)?;
    let told = drawn_in(alloc, &checked, places, maps, drawn);
    drop(checked);
    told
}

/// A graph of the traces that a book lists.
fn drawn_in<'a>(
    alloc: Global,
    checked: &Checked<'_>,
    places: &Places<'_>,
    maps: &Maps<'_>,
    drawn: Drawn<'_>,
) -> Result<Told, Fault<'a>>
    ensures { IfOk result (λ told. VerdictIs checked.now.book told.verdict) }
{
    if let Drawn::Around { name, .. } = drawn {
        find_class(alloc, &checked.book, name)?;
    }
    let sources = checked.sources.as_slice();
    let shown = ShownPlaces {
        files: places,
        sources,
    };
    let text = dot(alloc, &checked.book, sources, &shown, maps, drawn)?;
    let verdict = verdict_of(&checked.book);
    Ok(Told { text, verdict })
}
