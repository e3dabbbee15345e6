//! What `json` and the formats of other programs have in common: rows of some traces, and a text of them.
ghost use Rattle.std.specs.Prelude.{◌≡◌, ◌≢◌, ◌≤◌, Err, IfOk, IfSome, None};
ghost use Rattle.ld_trace.specs.Sources.{sources, stream_fault};
ghost use Rattle.ld_check.specs.OfReport.Verdict.{VerdictIs};
ghost use Rattle.ld_json.specs.Json.{json_text};
ghost use Rattle.ld_files.specs.declared.fault.Fault.TheVariants.{Together};
ghost use Rattle.ld_trace.specs.declared.source.StreamFault.{StreamFault};
ghost use Rattle.lockgraph.specs.declared.rows.Form.TheVariants.{Json};
ghost use Rattle.lockgraph.specs.Json.{IsJsonOf};
ghost use Rattle.lockgraph.specs.News.{ComesToNew};

use crate::news::{NewsFault, fault_of_news, verdict_of_new};
use ld_baseline::new_report;
use ld_check::{Checked, MOST_WORKERS, NoGate, Verdict, check, report_in, verdict_of};
use ld_commands::{FormatWords, JsonWords, Mapped};
use ld_explain::{FilePaths, Part, rows_of, rows_of_part};
use ld_files::{Fault, Told, maps_in, maps_of, read_known, read_maps, read_streams, write_told};
use ld_formats::{Format, format_text};
use ld_io::Std;
use ld_json::json_text;
use ld_places::{Places, ShownPlaces};
use ld_rows::Rows;
use ld_source_map::Maps;
use ld_sources::{Folder, read_sources};
use std::alloc::{AllocError, Global};
use std::io;
use std::rt::Files;
use std::sync::Wait;
use std::thread::Threads;

/// In which form rows are written.
#[derive(Clone, Copy)]
enum Form<'f> {
    /// As one JSON object a line.
    Json,
    /// As other programs read them, with the sources that these folders have.
    Format(&'f Format<'f>, &'f [Folder<'f>]),
}

impl Form<'_> {
    /// Whether all classes and dependencies are written, those of no violation too.
    fn has_all(self) -> bool {
        matches!(self, Form::Format(Format::Html { .. }, _))
    }
}

/// How a report is told.
#[derive(Clone, Copy)]
struct Way<'f> {
    form: Form<'f>,
    /// How many violations are told at most; 0 for all.
    most: u64,
}

/// A text of known violations, and the name of its file.
#[derive(Drop)]
struct Known<'a> {
    name: &'a str,
    text: Vec<u8>,
}

/// Writes the report of the named files as one JSON object a line. May wait.
///
/// # Errors
///
/// Those of `answer_rows`.
pub fn answer_json<'a, R: Files + io::Input + Print + AllocGlobal + Threads + Wait + Sync>(
    rt: &R,
    words: &JsonWords<'a>,
) -> Result<Verdict, Fault<'a>> {
    let way = Way {
        form: Form::Json,
        most: words.most,
    };
    answer_rows(rt, &words.mapped, None, way)
}

/// Writes the report of the named files for other programs. May wait.
///
/// # Errors
///
/// `Open` for the first folder of sources that isn't there, and those of `read_known` and of `answer_rows`.
pub fn answer_format<'a, R: Files + io::Input + Print + AllocGlobal + Threads + Wait + Sync>(
    rt: &R,
    words: &FormatWords<'a>,
) -> Result<Verdict, Fault<'a>> {
    let folders = folders_of(rt, &words.folders)?;
    let way = Way {
        form: Form::Format(&words.format, &folders),
        most: words.most,
    };
    // A mistake in it is told before the traces are read.
    let known = match words.known {
        Some(name) => Some(Known {
            name,
            text: read_known(rt, name)?,
        }),
        None => None,
    };
    answer_rows(rt, &words.mapped, known, way)
}

/// The folders of these names.
fn folders_of<'a, R: Files + AllocGlobal>(
    rt: &R,
    names: &[&'a str],
) -> Result<Vec<Folder<'a>>, Fault<'a>> {
    let mut folders = Vec::new(rt.alloc());
    for name in names {
        match Folder::of(rt, rt.alloc(), *name) {
            Ok(folder) => keep(&mut folders, folder)?,
            Err(error) => return Err(Fault::Open(*name, error)),
        }
    }
    Ok(folders)
}

/// Puts a folder behind others.
fn keep<'a>(folders: &mut Vec<Folder<'a>>, folder: Folder<'a>) -> Result<(), AllocError> {
    folders.push(folder)?;
    Ok(())
}

/// Writes the report of the named files, without what is known. May wait.
///
/// # Errors
///
/// Those of `read_maps`, `maps_in`, `read_streams`, `rows_told`, `news_told` and `write_told`.
fn answer_rows<'a, R: Files + io::Input + Print + AllocGlobal + Threads + Wait + Sync>(
    rt: &R,
    mapped: &Mapped<'a>,
    known: Option<Known<'a>>,
    way: Way<'_>,
) -> Result<Verdict, Fault<'a>> {
    let files = &mapped.given.files;
    let texts = read_maps(rt, &mapped.maps, files)?;
    // A mistake in them is told before the traces are read.
    let maps = maps_in(rt.alloc(), &texts)?;
    let streams = read_streams(rt, files)?;
    let maps = maps_of(rt.alloc(), &texts, maps, files, &streams)?;
    let alloc = rt.alloc();
    let (bytes, places) = (&streams.bytes, &streams.places);
    let workers = mapped.given.workers;
    let told = match &known {
        Some(known) => match news_told(rt, alloc, bytes, places, &known.text, &maps, way, workers) {
            Ok(told) => Ok(told),
            Err(fault) => Err(fault_of_news(known.name, fault)),
        },
        None => rows_told(rt, alloc, bytes, places, &maps, way, workers),
    };
    let mut output = Std::new(io::writer(rt));
    match told {
        Ok(told) => write_told(&mut output, &told),
        Err(fault) => Err(fault.of_stream(alloc, files, bytes)),
    }
}

/// The report of these streams, whose traces that many workers read at once. May wait.
///
/// # Errors
///
/// `Together` exactly where they are no stream together, whatever memory there is; `Memory` where a growth was
/// refused; and `Uneven` where the workers' book isn't that of the stream.
fn rows_told<'a, R: Files + Threads + Wait + Sync>(
    rt: &R,
    alloc: Global,
    bytes: &[u8],
    places: &Places<'_>,
    maps: &Maps<'_>,
    way: Way<'_>,
    workers: usize,
) -> Result<Told, Fault<'a>>
    requires { (1 ≤ workers) × (workers ≤ MOST_WORKERS) }
    ensures verdict { IfOk result (λ told. VerdictIs (sources bytes.now) told.verdict) }
    ensures stream { IfSome (stream_fault bytes.now) (λ fault. result ≡ Err (Together fault)) }
{
    let checked = check(rt, alloc, bytes, workers, &NoGate)?;
    let told = rows_told_in(rt, alloc, &checked, places, maps, way);
    drop(checked);
    told
}

/// The report of the traces that a book lists.
fn rows_told_in<'a, R: Files>(
    rt: &R,
    alloc: Global,
    checked: &Checked<'_>,
    places: &Places<'_>,
    maps: &Maps<'_>,
    way: Way<'_>,
) -> Result<Told, Fault<'a>>
    ensures verdict { IfOk result (λ told. VerdictIs checked.now.book told.verdict) }
    ensures json { way.entry.form ≡ Json → way.entry.most ≡ 0 → IfOk result (λ told.
        IsJsonOf checked.now.book told.text.items) }
{
    let report = report_in(alloc, &checked.book)?;
    let text = text_in(rt, alloc, checked, &report, None, places, maps, way)?;
    let verdict = verdict_of(&checked.book);
    Ok(Told { text, verdict })
}

/// What is new in these streams, whose traces that many workers read at once. May wait.
///
/// # Errors
///
/// `Stream` exactly where the stream has a fault, whatever memory there is; `UnknownLine` where the known text has a line
/// that is none of a report; `Memory` where a growth was refused; and `Uneven` where the workers' book isn't that of the
/// stream.
fn news_told<R: Files + Threads + Wait + Sync>(
    rt: &R,
    alloc: Global,
    bytes: &[u8],
    places: &Places<'_>,
    known: &[u8],
    maps: &Maps<'_>,
    way: Way<'_>,
    workers: usize,
) -> Result<Told, NewsFault>
    requires { (1 ≤ workers) × (workers ≤ MOST_WORKERS) }
    ensures verdict { IfOk result (λ told. ComesToNew (sources bytes.now) known.now told.verdict) }
    ensures stream { IfSome (stream_fault bytes.now) (λ fault.
        result ≡ Err (NewsFault.Stream fault)) }
{
    let checked = check(rt, alloc, bytes, workers, &NoGate)?;
    let told = news_told_in(rt, alloc, &checked, places, known, maps, way);
    drop(checked);
    told
}

/// What is new in the traces that a book lists.
fn news_told_in<R: Files>(
    rt: &R,
    alloc: Global,
    checked: &Checked<'_>,
    places: &Places<'_>,
    known: &[u8],
    maps: &Maps<'_>,
    way: Way<'_>,
) -> Result<Told, NewsFault>
    ensures verdict { IfOk result (λ told. ComesToNew checked.now.book known.now told.verdict) }
    ensures stream { (fault : StreamFault) → result ≢ Err (NewsFault.Stream fault) }
{
    let report = report_in(alloc, &checked.book)?;
    let new = new_report(alloc, &report, known)?;
    let text = text_in(
        rt,
        alloc,
        checked,
        &report,
        Some(&new.text),
        places,
        maps,
        way,
    )?;
    let verdict = verdict_of_new(new.count, checked.book.totals().refused);
    Ok(Told { text, verdict })
}

/// The text on these traces, of which this is the report; if there is one of what is new, on that.
fn text_in<R: Files>(
    rt: &R,
    alloc: Global,
    checked: &Checked<'_>,
    report: &[u8],
    new: Option<&[u8]>,
    places: &Places<'_>,
    maps: &Maps<'_>,
    way: Way<'_>,
) -> Result<Vec<u8>, AllocError>
    ensures json { way.entry.form ≡ Json → way.entry.most ≡ 0 → new.entry ≡ None → IfOk result (λ text.
        IsJsonOf checked.now.book text.items) }
{
    let paths = FilePaths::of(alloc, &checked.sources)?;
    // Lent again, since the paths of files live for a shorter time.
    text_by(
        rt, alloc, &*checked, &*report, new, &*places, &paths, maps, way,
    )
}

/// The same with the paths of files.
fn text_by<'s, R: Files>(
    rt: &R,
    alloc: Global,
    checked: &'s Checked<'s>,
    report: &'s [u8],
    new: Option<&[u8]>,
    places: &'s Places<'s>,
    paths: &'s FilePaths<'s>,
    maps: &Maps<'_>,
    way: Way<'_>,
) -> Result<Vec<u8>, AllocError>
    ensures json { way.entry.form ≡ Json → way.entry.most ≡ 0 → new.entry ≡ None → IfOk result (λ text.
        IsJsonOf checked.now.book text.items) }
{
    let shown = ShownPlaces {
        files: places,
        sources: checked.sources.as_slice(),
    };
    match new {
        None if way.most == 0 => {
            text_of_whole(rt, alloc, checked, report, &shown, paths, maps, way.form)
        }
        _ => {
            let part = Part {
                new,
                most: way.most,
            };
            text_of_part(
                rt, alloc, checked, report, &part, &shown, paths, maps, way.form,
            )
        }
    }
}

/// The text on all that this report says.
fn text_of_whole<'s, R: Files>(
    rt: &R,
    alloc: Global,
    checked: &'s Checked<'s>,
    report: &'s [u8],
    shown: &ShownPlaces<'s>,
    paths: &'s FilePaths<'s>,
    maps: &Maps<'_>,
    form: Form<'_>,
) -> Result<Vec<u8>, AllocError>
    ensures json { form.entry ≡ Json → IfOk result (λ text. IsJsonOf checked.now.book text.items) }
{
    let sources = checked.sources.as_slice();
    let all = form.has_all();
    let rows = rows_of(
        alloc,
        &checked.book,
        report,
        sources,
        shown,
        paths,
        maps,
        all,
    )?;
    let text = text_of_rows(rt, alloc, &rows, form)?;
    drop(rows);
    Ok(text)
}

/// The text on a part of what this report says.
fn text_of_part<'s, R: Files>(
    rt: &R,
    alloc: Global,
    checked: &'s Checked<'s>,
    report: &'s [u8],
    part: &Part<'_>,
    shown: &ShownPlaces<'s>,
    paths: &'s FilePaths<'s>,
    maps: &Maps<'_>,
    form: Form<'_>,
) -> Result<Vec<u8>, AllocError> {
    let sources = checked.sources.as_slice();
    let all = form.has_all();
    let rows = rows_of_part(
        alloc,
        &checked.book,
        report,
        part,
        sources,
        shown,
        paths,
        maps,
        all,
    )?;
    let text = text_of_rows(rt, alloc, &rows, form)?;
    drop(rows);
    Ok(text)
}

/// The text of rows in a form.
fn text_of_rows<R: Files>(
    rt: &R,
    alloc: Global,
    rows: &Rows<'_>,
    form: Form<'_>,
) -> Result<Vec<u8>, AllocError>
    ensures { form.entry ≡ Json → IfOk result (λ text. text.items ≡ json_text rows.now) }
{
    match form {
        Form::Json => json_text(alloc, rows),
        Form::Format(format, folders) => {
            let sources = read_sources(rt, alloc, folders, rows)?;
            format_text(alloc, rows, &sources, format)
        }
    }
}
