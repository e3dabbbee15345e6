//! What tests of desks, tickets and workers use: streams, and what books, feeders and counters are expected to
//! have.
ghost use Rattle.std.specs.Prelude.{◌≡◌, ◌≤◌, All, IfOk, length, map};
ghost use Rattle.ld_trace.specs.Sources.{AreNumbered, Fits, plain};

use ld_book::{Book, ClassName, Totals};
use ld_facts::Witness;
use ld_trace::{MOST_TRACES, Source, split};
use ld_work::{Desk, Tally};
use std::alloc::{AllocError, Global};
use std::process::Abort;
use std::sync::Wait;
use std::sync::atomic::{AtomicU64, Ordering};
use std::sync::ledger::Ledger;
use std::test::Fail;

pub const INVERSION: &[u8] = b"trace ab\nacquire t A\nacquire t B\nrelease t B\nrelease t A\n\
    trace ba\nacquire t B\nacquire t A\nrelease t A\nrelease t B\n";

/// A stream of one trace that has more than a million bytes, and 20 000 events.
pub fn long_trace(alloc: Global) -> Result<Vec<u8>, AllocError> {
    let mut stream = b"trace x\n".to_vec(alloc)?;
    for _ in 0..10_000 {
        stream.extend_from_slice(
            b"# a long trace has many bytes, and as many as a million of them are still read\n",
        )?;
        stream.extend_from_slice(b"acquire t A\nrelease t A\n")?;
    }
    Ok(stream)
}

/// The traces of a stream, whichever allocation is refused, as long as it is one alone.
pub fn sources_of<'a>(alloc: Global, bytes: &'a [u8]) -> Result<Vec<Source<'a>>, Fail>
    ensures few { IfOk result (λ sources. length sources.items ≤ MOST_TRACES) }
    ensures numbered { IfOk result (λ sources. AreNumbered (map plain sources.items)) }
    ensures fit { IfOk result (λ sources. All (λ source. Fits (plain source)) sources.items) }
{
    match split(alloc, bytes) {
        Ok(sources) => Ok(sources),
        Err(_) => Ok(split(alloc, bytes)?),
    }
}

pub fn witness(number: u64, line: u64) -> Option<Witness> {
    Some(Witness { number, line })
}

/// The class of this name, without a subclass.
pub fn class(name: &[u8]) -> ClassName<'_> {
    ClassName { name, sub: 0 }
}

pub fn tally(traces: u64, events: u64) -> Tally {
    Tally { traces, events }
}

/// What a book has, of whose traces none is refused.
pub fn totals(traces: u64, events: u64, classes: u64, dependencies: u64) -> Totals {
    Totals {
        traces,
        refused: 0,
        events,
        classes,
        dependencies,
    }
}

/// The totals of a desk's book.
pub fn totals_of<T: Ledger, E: Ledger, R: Wait>(rt: &R, desk: &Desk<'_, T, E>) -> Totals {
    desk.look(rt).book().totals()
}

/// Asserts that the book has the totals and the witnesses of `INVERSION`.
pub fn expect_inversion<R: Abort>(rt: &R, book: &Book<'_>) {
    assert_eq!(rt; book.totals(), totals(2, 8, 2, 2));
    assert_eq!(rt; book.edge(class(b"A"), class(b"B")), witness(0, 3));
    assert_eq!(rt; book.edge(class(b"B"), class(b"A")), witness(1, 8));
}

/// Asserts that the first counters are at 1, as many as are said, and all others at 0.
pub fn expect_first_once<R: Abort>(rt: &R, counts: &[AtomicU64], first: usize) {
    for (place, count) in counts.iter().enumerate() {
        let wanted = if place < first { 1 } else { 0 };
        assert_eq!(rt; count.load(Ordering::SeqCst), wanted);
    }
}
