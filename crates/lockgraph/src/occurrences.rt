//! `list --dependency`: the traces that show a dependency.
ghost use Rattle.std.specs.Prelude.{◌≡◌, ◌≢◌, Err, IfOk, map};
ghost use Rattle.ld_trace.specs.declared.source.StreamFault.{StreamFault};
ghost use Rattle.ld_trace.specs.Sources.{plain};
ghost use Rattle.ld_files.specs.declared.fault.Fault.TheVariants.{Together, Write};
ghost use Rattle.ld_occurrences.specs.List.{IsOccurrenceList};

use ld_check::Book;
use ld_commands::Between;
use ld_files::{Fault, find_class};
use ld_occurrences::occurrence_list;
use ld_places::ShownPlaces;
use std::alloc::Global;

/// The list of the traces of a book that show the dependency between these classes.
///
/// # Errors
///
/// `NoClass` if no trace acquires one of the classes, or `Memory` if memory was refused.
pub fn occurrences_in<'f>(
    alloc: Global,
    book: &Book<'_>,
    shown: &ShownPlaces<'_>,
    between: Between<'_>,
) -> Result<Vec<u8>, Fault<'f>>
    ensures list { IfOk result (λ text. IsOccurrenceList shown.now.files.now
        (map plain shown.now.sources.now) book.now between.entry.from.now between.entry.to.now text.items) }
    ensures unwritten { result ≢ Err Write }
    ensures sound { (fault : StreamFault) → result ≢ Err (Together fault) }
{
    let from = between.from.as_bytes();
    let to = between.to.as_bytes();
    find_class(alloc, book, from)?;
    find_class(alloc, book, to)?;
    Ok(occurrence_list(alloc, book.listed(), shown, from, to)?)
}
