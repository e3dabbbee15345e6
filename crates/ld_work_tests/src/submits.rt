//! Desks, and traces that are submitted to them, where memory is refused, and a long trace.
ghost use Rattle.std.specs.Prelude.{◌≡◌};

use crate::common::{INVERSION, long_trace, sources_of, tally, totals, totals_of};
use ld_book::{Refusal, Totals};
use ld_facts::{Facts, facts};
use ld_trace::Source;
use ld_work::{Desk, Feeder};
use std::alloc::{AllocError, Global};
use std::marker::Brand;
use std::process::Abort;
use std::sync::Wait;
use std::sync::ledger::{Blank, Ledger};
use std::test::Fail;

/// The facts of a trace, whichever allocation is refused, as long as it is one alone.
fn facts_of<'a, R: Abort>(rt: &R, alloc: Global, source: Source<'a>) -> Facts<'a> {
    assert!(rt; source.fits());
    let mut answer = facts(alloc, source);
    if answer.is_err() {
        drop(answer);
        answer = facts(alloc, source);
    }
    answer.expect(rt, "the facts of a trace")
}

/// Submits a trace whose number isn't listed. The facts come back where memory is refused.
fn try_submit<'a, T: Ledger, E: Ledger, R: Wait + Abort>(
    rt: &R,
    desk: &Desk<'a, T, E>,
    facts: Facts<'a>,
    feeder: &mut Feeder<T, E>,
) -> Option<Facts<'a>> {
    let answer = desk.look(rt).submit(feeder, facts);
    match answer {
        Ok(()) => None,
        Err(Refusal::Memory(facts)) => Some(facts),
        Err(Refusal::Twice(facts)) => {
            assert!(rt; false, "no trace is listed");
            Some(facts)
        }
    }
}

/// Submits the first trace of a desk, and tells whether memory was refused. Then the tally and the book are as
/// before, and the call made again answers `Ok`.
fn submit_first<'a, T: Ledger, E: Ledger, R: Wait + Abort>(
    rt: &R,
    alloc: Global,
    desk: &Desk<'a, T, E>,
    source: Source<'a>,
    feeder: &mut Feeder<T, E>,
) -> bool {
    let facts = facts_of(rt, alloc, source);
    let Some(facts) = try_submit(rt, desk, facts, feeder) else {
        return false;
    };
    assert_eq!(rt; feeder.tally(), tally(0, 0));
    assert_eq!(rt; totals_of(rt, desk), totals(0, 0, 0, 0));
    let back = try_submit(rt, desk, facts, feeder);
    assert!(rt; back.is_none());
    drop(back);
    true
}

/// The one feeder of a desk submits a trace, by which its book comes to have that much. Tells whether memory
/// was refused: then there is no desk, or the trace is submitted again.
fn one_feeder<'a, T: Ledger, E: Ledger, R: Wait + Abort>(
    rt: &R,
    alloc: Global,
    traces: Blank,
    events: Blank,
    source: Source<'a>,
    wanted: Totals,
) -> bool
    requires traces { (traces.name ≡ T.name) × (traces.parts ≡ T.parts) × (traces.parts ≡ 1) }
    requires events { (events.name ≡ E.name) × (events.parts ≡ E.parts) × (events.parts ≡ 1) }
{
    let Ok((desk, mut feeders)) = Desk::<T, E>::new(alloc, traces, events, 1) else {
        return true;
    };
    let mut feeder = feeders.pop().expect(rt, "a feeder");
    assert!(rt; feeders.is_empty());
    let is_refused = submit_first(rt, alloc, &desk, source, &mut feeder);
    assert_eq!(rt; feeder.tally(), tally(wanted.traces, wanted.events));
    assert_eq!(rt; totals_of(rt, &desk), wanted);
    drop(desk);
    is_refused
}

// Under `rt try --test --fail-alloc N` one allocation is refused, another for each N.
#[test]
fn a_refused_submit_changes_nothing(rt: HostRuntime) -> Result<(), Fail> {
    let sources = sources_of(rt.alloc(), INVERSION)?;
    assert_eq!(rt; sources.len(), 2);
    let (traces, events) = (Blank::new(1), Blank::new(1));
    let wanted = totals(1, 4, 2, 1);
    one_feeder::<Brand, Brand, _>(&rt, rt.alloc(), traces, events, sources[0], wanted);
    Ok(())
}

// A `submit` that answered `Memory` for a long trace would meet every contract.
#[test]
fn a_long_trace_is_submitted(rt: HostRuntime) -> Result<(), Fail> {
    let stream = long_trace(rt.alloc())?;
    let sources = sources_of(rt.alloc(), &stream)?;
    assert_eq!(rt; sources.len(), 1);
    let (traces, events) = (Blank::new(1), Blank::new(1));
    let wanted = totals(1, 20_000, 1, 0);
    let is_refused = one_feeder::<Brand, Brand, _>(
        &rt,
        rt.alloc(),
        traces,
        events,
        sources[0],
        wanted,
    );
    assert!(rt; !is_refused);
    Ok(())
}

/// A desk of sixteen feeders, which have added nothing, where a growth may be refused: then there is none.
fn sixteen_or_none<T: Ledger, E: Ledger, R: Wait + Abort>(
    rt: &R,
    alloc: Global,
    traces: Blank,
    events: Blank,
)
    requires traces { (traces.name ≡ T.name) × (traces.parts ≡ T.parts) × (traces.parts ≡ 16) }
    requires events { (events.name ≡ E.name) × (events.parts ≡ E.parts) × (events.parts ≡ 16) }
{
    match Desk::<T, E>::new(alloc, traces, events, 16) {
        Ok((desk, feeders)) => {
            assert_eq!(rt; feeders.len(), 16);
            assert!(rt; feeders.iter().all(|feeder| feeder.tally() == tally(0, 0)));
            assert_eq!(rt; totals_of(rt, &desk), totals(0, 0, 0, 0));
            drop(desk);
        }
        Err(AllocError) => {}
    }
}

// Under `rt try --test --fail-alloc N` as well.
#[test]
fn a_refused_desk_is_told(rt: HostRuntime) {
    let (traces, events) = (Blank::new(16), Blank::new(16));
    sixteen_or_none::<Brand, Brand, _>(&rt, rt.alloc(), traces, events);
}
