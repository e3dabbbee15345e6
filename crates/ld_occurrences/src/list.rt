//! The list of the traces that show a dependency. Each call answers `AllocError` if memory was refused.
ghost use Rattle.std.specs.Prelude.{◌≡◌, All, IfOk, OnOk, map};
ghost use Rattle.ld_trace.specs.Sources.{Fits, plain};
ghost use Rattle.ld_places.specs.Places.{plain_place};
ghost use Rattle.ld_occurrences.specs.List.{AreWritten, IsOccurrenceList, IsWrittenAt};
ghost use Rattle.ld_occurrences.specs.Occurrences.{traces_of};

use crate::named::NamedDependency;
use crate::rows::{Occurrence, occurrences};
use crate::text::{write_head, write_occurrence};
use ld_places::{Place, ShownPlaces};
use ld_rules::Listed;
use std::alloc::{AllocError, Global};

/// The list of those of these traces that show the dependency between two classes, each named as a report does, `NAME` or
/// `NAME/N`: how many they are, and a line for each, the shortest trace first, with the place of the first line there at
/// which the dependency stands.
///
/// # Errors
///
/// `AllocError` if memory was refused.
pub fn occurrence_list(
    alloc: Global,
    traces: &[Listed<'_>],
    shown: &ShownPlaces<'_>,
    from: &[u8],
    to: &[u8],
) -> Result<Vec<u8>, AllocError>
    requires { All Fits (traces_of traces.now) }
    ensures { IfOk result (λ text. IsOccurrenceList shown.now.files.now
        (map plain shown.now.sources.now) (traces_of traces.now) from.now to.now text.items) }
{
    let what = NamedDependency::between(from, to);
    let rows = occurrences(alloc, traces, what)?;
    let mut text = Vec::new(alloc);
    write_head(&mut text, what, rows.len())?;
    write_rows(&mut text, &rows, shown)?;
    Ok(text)
}

/// Writes these rows, each with the place at which its first line is shown.
fn write_rows(
    text: &mut Vec<u8>,
    rows: &[Occurrence<'_>],
    shown: &ShownPlaces<'_>,
) -> Result<(), AllocError>
    ensures { OnOk result (AreWritten shown.now.files.now (map plain shown.now.sources.now)
        rows.now text.old.items text.new.items) }
{
    for row in rows {
        let place = place_of(shown, row.first);
        write_occurrence(text, row, place.file, place.line)?;
    }
    Ok(())
}

/// Where a line is shown. Of a line of no file it is no name and that line.
fn place_of<'f>(shown: &ShownPlaces<'f>, line: u64) -> Place<'f>
    ensures { IsWrittenAt shown.now.files.now (map plain shown.now.sources.now) line
        (plain_place result) }
{
    match shown.place(line) {
        Some(place) => place,
        None => Place { file: "", line },
    }
}
