//! A desk in the hands of a caller with threads of its own.
ghost use Rattle.std.specs.Prelude.{◌≡◌};

use crate::common::{class, sources_of, tally, totals, witness};
use ld_book::{Book, Totals};
use ld_facts::{Witness, facts};
use ld_trace::Source;
use ld_work::{Back, Desk, Feeder, Gathered};
use std::alloc::Global;
use std::marker::Brand;
use std::process::Abort;
use std::sync::Wait;
use std::sync::atomic::{AtomicU64, Ordering};
use std::sync::ledger::{Blank, Ledger};
use std::test::Fail;
use std::thread;
use std::thread::Threads;

/// The number of the trace that a book lists first.
fn first_of(book: &Book<'_>) -> Option<u64> {
    book.listed().first().map(|trace| trace.source.number)
}

/// What a book shows: its totals, the trace that it lists first, and the first witness of A before B.
fn shown(book: &Book<'_>) -> (Totals, Option<u64>, Option<Witness>) {
    let edge = book.edge(class(b"A"), class(b"B"));
    (book.totals(), first_of(book), edge)
}

/// The same of a desk's book.
fn shown_by<T: Ledger, E: Ledger, R: Wait>(
    rt: &R,
    desk: &Desk<'_, T, E>,
) -> (Totals, Option<u64>, Option<Witness>) {
    shown(desk.look(rt).book())
}

/// Asserts that a desk's book has at least what a feeder added.
fn expect_covered<T: Ledger, E: Ledger, R: Wait + Abort>(
    rt: &R,
    desk: &Desk<'_, T, E>,
    feeder: &mut Feeder<T, E>,
) {
    let mut look = desk.look(rt);
    look.covers(feeder);
    let (totals, tally) = (look.book().totals(), feeder.tally());
    assert!(rt; totals.traces >= tally.traces);
    assert!(rt; totals.events >= tally.events);
}

/// Adds a trace, whose number isn't listed.
fn submit<'a, T: Ledger, E: Ledger, R: Wait + Abort>(
    rt: &R,
    alloc: Global,
    desk: &Desk<'a, T, E>,
    source: Source<'a>,
    feeder: &mut Feeder<T, E>,
) {
    assert!(rt; source.fits());
    let facts = facts(alloc, source).expect(rt, "the facts of a trace");
    let answer = desk.look(rt).submit(feeder, facts);
    let added = answer.is_ok();
    drop(answer);
    assert!(rt; added);
    expect_covered(rt, desk, feeder);
}

/// Gathers a desk, first without the last of its feeders: it comes back with the others, and its book is as
/// before.
fn gather_twice<'a, T: Ledger, E: Ledger, R: Wait + Abort>(
    rt: &R,
    desk: Desk<'a, T, E>,
    mut feeders: Vec<Feeder<T, E>>,
) -> Gathered<'a> {
    let last = feeders.pop().expect(rt, "a last feeder");
    let (before, others) = (shown_by(rt, &desk), feeders.len());
    assert!(rt; before.0.traces > 0);
    let back = desk
        .gather(feeders)
        .err()
        .expect(rt, "all but the last one back");
    let Back { desk, mut feeders } = back;
    assert_eq!(rt; feeders.len(), others);
    assert_eq!(rt; shown_by(rt, &desk), before);
    assert!(rt; feeders.push(last).is_ok());
    let all = desk.gather(feeders).ok().expect(rt, "all feeders");
    assert_eq!(rt; shown(&all.book), before);
    all
}

/// Adds four of these traces, from that place on, the last of them first.
fn feed_four<'a, T: Ledger, E: Ledger, R: Wait + Abort>(
    rt: &R,
    alloc: Global,
    desk: &Desk<'a, T, E>,
    sources: &[Source<'a>],
    first: u64,
    mut feeder: Feeder<T, E>,
) -> Feeder<T, E> {
    let first = first as usize;
    assert!(rt; first < sources.len() && sources.len() - first >= 4);
    for place in (first..first + 4).rev() {
        submit(rt, alloc, desk, sources[place], &mut feeder);
    }
    feeder
}

/// A thread for each feeder adds four of these traces to the desk.
fn fed_by_threads<'a, T, E, R>(
    rt: &R,
    alloc: Global,
    desk: &Desk<'a, T, E>,
    sources: &[Source<'a>],
    feeders: Vec<Feeder<T, E>>,
) -> Vec<Feeder<T, E>>
where
    T: Ledger + Send + Sync,
    E: Ledger + Send + Sync,
    R: Threads + Wait + Abort + Sync,
{
    let next = AtomicU64::new(0);
    let place = &next;
    let fed = thread::map_vec(
        rt,
        feeders,
        &|feeder: Feeder<T, E>| {
            feed_four(
                rt,
                alloc,
                desk,
                sources,
                place.fetch_add(4, Ordering::SeqCst),
                feeder,
            )
        },
    );
    fed.expect(rt, "the feeders")
}

/// Sixteen threads add four of these 64 traces each to a desk, which is then gathered.
fn sixteen_feeders<'a, T, E, R>(
    rt: &R,
    alloc: Global,
    traces: Blank,
    events: Blank,
    sources: &[Source<'a>],
) -> Gathered<'a>
where
    T: Ledger + Send + Sync,
    E: Ledger + Send + Sync,
    R: Threads + Wait + Abort + Sync,
    requires traces { (traces.name ≡ T.name) × (traces.parts ≡ T.parts) × (traces.parts ≡ 16) }
    requires events { (events.name ≡ E.name) × (events.parts ≡ E.parts) × (events.parts ≡ 16) }
{
    let made = Desk::<T, E>::new(alloc, traces, events, 16);
    let (desk, feeders) = made.expect(rt, "a desk");
    let fed = fed_by_threads(rt, alloc, &desk, sources, feeders);
    assert_eq!(rt; fed.len(), 16);
    gather_twice(rt, desk, fed)
}

#[test]
fn sixteen_threads_feed_a_desk(rt: HostRuntime) -> Result<(), Fail> {
    let stream = b"trace a\nacquire t A\nacquire t B\n".repeat(rt.alloc(), 64)?;
    let sources = sources_of(rt.alloc(), &stream)?;
    let (traces, events) = (Blank::new(16), Blank::new(16));
    let all = sixteen_feeders::<Brand, Brand, _>(&rt, rt.alloc(), traces, events, &sources);
    assert_eq!(&rt; all.tally, tally(64, 128));
    assert_eq!(&rt; all.book.totals(), totals(64, 128, 2, 1));
    assert_eq!(&rt; all.book.edge(class(b"A"), class(b"B")), witness(0, 3));
    drop(all);
    Ok(())
}
