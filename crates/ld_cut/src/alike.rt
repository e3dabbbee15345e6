//! Whether some traces show together what another one shows.
ghost use Rattle.std.specs.Prelude.{◌≡◌, ◌<◌, ◌++◌, ◌∷◌, [], None, IfOk, IfSome, IsSome, map};
ghost use Rattle.std.specs.Bool.{OnTrue};
ghost use Rattle.std.specs.List.{last_or};
ghost use Rattle.ld_class.specs.Names.{PlainClass, place_of};
ghost use Rattle.ld_trace.specs.Sources.{plain};
ghost use Rattle.ld_rules.specs.Dependency.{Dependency};
ghost use Rattle.ld_rules.specs.Union.{dependency_witness, union_classes, use_witness};
ghost use Rattle.ld_rules.specs.Usage.{Use};
ghost use Rattle.ld_reduce.specs.OfBook.OfUnion.declared.usage.UsageRow.{UsageRow};
ghost use Rattle.ld_cut.specs.Alike.{AreAlike};
ghost use Rattle.ld_cut.specs.Inner.Shows.{ShowsBits};

use ld_reduce::{Batch, BatchRefusal, Book, UsageRow};
use ld_trace::Source;
use std::alloc::{AllocError, Global};

/// Whether some traces show together just what another one shows, and none of all these is rejected.
///
/// # Errors
///
/// `AllocError` where a growth of memory was refused.
pub(crate) fn are_alike(
    alloc: Global,
    one: &[Source<'_>],
    pieces: &[Source<'_>],
) -> Result<bool, AllocError>
    ensures { IfOk result (λ alike. OnTrue alike (AreAlike (map plain one.now) (map plain pieces.now))) }
{
    let Some(one) = book_of(alloc, one)? else {
        return Ok(false);
    };
    match book_of(alloc, pieces) {
        Ok(Some(many)) => {
            let alike = show_same(&one, &many);
            drop(many);
            drop(one);
            Ok(alike)
        }
        Ok(None) => {
            drop(one);
            Ok(false)
        }
        Err(refusal) => {
            drop(one);
            Err(refusal)
        }
    }
}

/// The book of some traces; `None` if one of them couldn't be one of a stream, or their numbers don't rise.
fn book_of<'a>(alloc: Global, sources: &[Source<'a>]) -> Result<Option<Book<'a>>, AllocError>
    ensures { IfOk result (λ found. IfSome found (λ book. book ≡ map plain sources.now)) }
{
    let Some(batch) = batch_of(alloc, sources)? else {
        return Ok(None);
    };
    let mut book = Book::new(alloc);
    match book.add_batch(batch) {
        Ok(()) => Ok(Some(book)),
        Err(BatchRefusal::Memory(batch)) => {
            drop(batch);
            drop(book);
            Err(AllocError)
        }
        Err(BatchRefusal::Twice(batch)) => {
            drop(batch);
            drop(book);
            Ok(None)
        }
    }
}

/// The batch of some traces; `None` if one of them couldn't be one of a stream, or their numbers don't rise.
fn batch_of<'a>(alloc: Global, sources: &[Source<'a>]) -> Result<Option<Batch<'a>>, AllocError>
    ensures { IfOk result (λ found. IfSome found (λ batch. batch.sources ≡ map plain sources.now)) }
{
    let mut batch = Batch::new(alloc);
    for source in sources {
        match push(&mut batch, *source) {
            Ok(true) => {}
            Ok(false) => {
                drop(batch);
                return Ok(None);
            }
            Err(refusal) => {
                drop(batch);
                return Err(refusal);
            }
        }
    }
    Ok(Some(batch))
}

/// Reads one more trace, and tells whether it could be one of a stream, behind those that are read.
fn push<'a>(batch: &mut Batch<'a>, source: Source<'a>) -> Result<bool, AllocError>
    ensures { IfOk result (λ done. OnTrue done
        (batch.new.sources ≡ batch.old.sources ++ plain source.entry ∷ [])) }
{
    if !source.fits() || !is_above(batch, source.number) {
        return Ok(false);
    }
    batch.push(source)?;
    Ok(true)
}

/// Whether the number is above that of the last trace of a batch.
fn is_above(batch: &Batch<'_>, number: u64) -> bool
    ensures { OnTrue result (IfSome (last_or None batch.now.sources) (λ last. last.number < number)) }
{
    match batch.listed() {
        [.., last] => last.source.number < number,
        [] => true,
    }
}

/// Whether the traces of two books show the same, and none of them is rejected.
fn show_same(one: &Book<'_>, many: &Book<'_>) -> bool
    ensures { OnTrue result (AreAlike one.now many.now) }
{
    let _ = many.listed();
    if one.totals().refused > 0 {
        return false;
    }
    if many.totals().refused > 0 {
        return false;
    }
    let shown = shows_classes(one, many);
    if !shown {
        return false;
    }
    let shown = shows_classes(many, one);
    if !shown {
        return false;
    }
    let shown = shows_dependencies(one, many);
    if !shown {
        return false;
    }
    shows_dependencies(many, one)
}

/// Whether a book has the classes of another one, and their usage bits.
fn shows_classes(book: &Book<'_>, other: &Book<'_>) -> bool
    ensures classes { OnTrue result ((class : PlainClass) → IsSome (place_of (union_classes other.now) class)
        → IsSome (place_of (union_classes book.now) class)) }
    ensures uses { OnTrue result ((what : Use) → IsSome (use_witness other.now what)
        → IsSome (use_witness book.now what)) }
{
    let classes = other.classes();
    let rows = other.usage_rows();
    for id in 0..classes.len() {
        let Some(row) = book.usage(classes.name(id as u32)) else {
            return false;
        };
        let shown = shows_bits(&row, &rows[id]);
        if !shown {
            return false;
        }
    }
    true
}

/// Whether a row has the usage bits of another one.
fn shows_bits(row: &UsageRow, other: &UsageRow) -> bool
    ensures { OnTrue result (ShowsBits row.now other.now) }
{
    for i in 0..4 {
        if other.first[i].is_some() && row.first[i].is_none() {
            return false;
        }
    }
    true
}

/// Whether a book has the dependencies of another one.
fn shows_dependencies(book: &Book<'_>, other: &Book<'_>) -> bool
    ensures { OnTrue result ((what : Dependency) → IsSome (dependency_witness other.now what)
        → IsSome (dependency_witness book.now what)) }
{
    let classes = other.classes();
    for row in other.dependencies() {
        let from = classes.name(row.edge.from);
        let to = classes.name(row.edge.to);
        if book.edge(from, to).is_none() {
            return false;
        }
    }
    true
}
