//! Whether a book lists all of the sources that it is to list, and which one it doesn't.
ghost use Rattle.std.specs.Prelude.{◌≡◌, ◌≢◌, ◌↔◌, All, AllPairs, IfNone, IfOk, IfSome, IsTrue, map};
ghost use Rattle.std.specs.List.{Contains};
ghost use Rattle.ld_trace.specs.Sources.{AreNumbered, plain};
ghost use Rattle.ld_batch.specs.Batch.{AreRising, sources_of};
ghost use Rattle.ld_work.specs.Inner.Uneven.{IsUneven};
ghost use Rattle.ld_work.specs.Work.{ListsEachOnce};

use ld_book::{Book, Traces};
use ld_rules::Listed;
use ld_trace::Source;
use std::alloc::{AllocError, Global};

/// Which number tells that the book, which lists nothing but sources, doesn't list each exactly once: the
/// least one whose source it doesn't list. `None` where it lists them so.
///
/// # Errors
///
/// `AllocError` where memory was refused.
pub fn uneven<'a>(
    alloc: Global,
    sources: &[Source<'a>],
    book: &Book<'a>,
) -> Result<Option<u64>, AllocError>
    requires numbered { AreNumbered (map plain sources.now) }
    requires among { All (Contains (map plain sources.now)) book.now }
    ensures even { IfOk result (λ answer.
        IfNone answer (ListsEachOnce (map plain sources.now) book.now)) }
    ensures uneven { IfOk result (λ answer. IfSome answer (λ number.
        IsUneven (map plain sources.now) book.now number)) }
{
    if are_all(sources, book.listed()) {
        return Ok(None);
    }
    // Which number tells it is looked for in the order of the numbers.
    let traces = Traces::new(alloc, book)?;
    Ok(first_uneven(sources, traces.listed()))
}

/// Whether these traces, which are sources and no two of which have one number, are all of the sources, in whatever
/// order. None is missing then where they are as many.
fn are_all(sources: &[Source<'_>], listed: &[Listed<'_>]) -> bool
    requires apart { AllPairs (λ a b. a.number ≢ b.number) (sources_of listed.now) }
    requires among { All (Contains (map plain sources.now)) (sources_of listed.now) }
    ensures { IsTrue result ↔ ListsEachOnce (map plain sources.now) (sources_of listed.now) }
{
    listed.len() == sources.len()
}

/// As `uneven`, of traces in the order of their numbers.
fn first_uneven(sources: &[Source<'_>], listed: &[Listed<'_>]) -> Option<u64>
    requires numbered { AreNumbered (map plain sources.now) }
    requires rising { AreRising (sources_of listed.now) }
    requires among { All (Contains (map plain sources.now)) (sources_of listed.now) }
    ensures even { IfNone result (sources_of listed.now ≡ map plain sources.now) }
    ensures uneven { IfSome result (λ number.
        IsUneven (map plain sources.now) (sources_of listed.now) number) }
{
    for place in 0..sources.len() {
        match listed.get(place) {
            Some(trace) if trace.source.number == place as u64 => {}
            _ => return Some(place as u64),
        }
    }
    None
}
