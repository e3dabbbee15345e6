//! A batch that is submitted to a desk, where memory is refused.
ghost use Rattle.std.specs.Prelude.{◌≡◌, ◌∷◌, []};
ghost use Rattle.ld_trace.specs.Sources.{plain};

use crate::common::{sources_of, tally, totals, totals_of};
use ld_book::{AddRefusal, Batch, BatchRefusal};
use ld_trace::Source;
use ld_work::{Desk, Feeder};
use std::alloc::Global;
use std::marker::Brand;
use std::process::Abort;
use std::sync::Wait;
use std::sync::ledger::{Blank, Ledger};
use std::test::Fail;

/// Two traces of one label that show the same.
const SAME_LABEL: &[u8] = b"trace d\nacquire t A\nacquire t B\ntrace d\nacquire t A\nacquire t B\n";

/// A batch of one trace, whichever allocation is refused, as long as it is one alone.
fn batch_of_one<'a, R: Abort>(rt: &R, alloc: Global, source: Source<'a>) -> Batch<'a>
    ensures { result.sources ≡ plain source.entry ∷ [] }
{
    let mut batch = Batch::new(alloc);
    assert!(rt; source.fits());
    if batch.push(source).is_err() {
        batch.push(source).expect(rt, "memory for a trace");
    }
    batch
}

/// A batch of two traces, the second of a greater number.
fn batch_of_two<'a, R: Abort>(
    rt: &R,
    alloc: Global,
    first: Source<'a>,
    second: Source<'a>,
) -> Batch<'a> {
    let mut batch = batch_of_one(rt, alloc, first);
    assert!(rt; second.fits());
    assert!(rt; first.number < second.number);
    if batch.push(second).is_err() {
        batch.push(second).expect(rt, "memory for a trace");
    }
    batch
}

/// Submits a batch, none of whose numbers is listed. It comes back where memory is refused.
fn try_submit<'a, T: Ledger, E: Ledger, R: Wait + Abort>(
    rt: &R,
    desk: &Desk<'a, T, E>,
    batch: Batch<'a>,
    feeder: &mut Feeder<T, E>,
) -> Option<Batch<'a>> {
    let answer = desk.look(rt).submit_batch(feeder, batch);
    match answer {
        Ok(()) => None,
        Err(BatchRefusal::Memory(batch)) => Some(batch),
        Err(BatchRefusal::Twice(batch)) => {
            assert!(rt; false, "no trace is listed");
            Some(batch)
        }
    }
}

/// Submits the first batch of a desk, of `SAME_LABEL`. Where memory is refused the tally and the book are as
/// before, and the call made again answers `Ok`.
fn submit_first<'a, T: Ledger, E: Ledger, R: Wait + Abort>(
    rt: &R,
    desk: &Desk<'a, T, E>,
    batch: Batch<'a>,
    feeder: &mut Feeder<T, E>,
) {
    if let Some(batch) = try_submit(rt, desk, batch, feeder) {
        assert_eq!(rt; feeder.tally(), tally(0, 0));
        assert_eq!(rt; totals_of(rt, desk), totals(0, 0, 0, 0));
        let back = try_submit(rt, desk, batch, feeder);
        assert!(rt; back.is_none());
        drop(back);
    }
    assert_eq!(rt; feeder.tally(), tally(2, 4));
    assert_eq!(rt; totals_of(rt, desk), totals(2, 4, 2, 1));
}

/// Submits the traces of a batch one number of which is listed. The batch stays as it is.
fn is_twice<'a, T: Ledger, E: Ledger, R: Wait + Abort>(
    rt: &R,
    desk: &Desk<'a, T, E>,
    batch: &mut Batch<'a>,
    feeder: &mut Feeder<T, E>,
) {
    let answer = desk.look(rt).submit_from(feeder, batch);
    assert_eq!(rt; answer, Err(AddRefusal::Twice));
    assert_eq!(rt; batch.listed().len(), 1);
}

/// Submits a batch one number of which is listed, and gives it as it comes back.
fn comes_back<'a, T: Ledger, E: Ledger, R: Wait + Abort>(
    rt: &R,
    desk: &Desk<'a, T, E>,
    batch: Batch<'a>,
    feeder: &mut Feeder<T, E>,
) -> Batch<'a> {
    let answer = desk.look(rt).submit_batch(feeder, batch);
    match answer {
        Err(BatchRefusal::Twice(batch)) => batch,
        Err(BatchRefusal::Memory(batch)) => {
            assert!(rt; false, "memory is refused");
            batch
        }
        Ok(()) => panic!(rt; "a trace is listed twice"),
    }
}

/// Submits a batch one number of which is listed: it stays or comes back, and nothing is counted.
fn submit_again<'a, T: Ledger, E: Ledger, R: Wait + Abort>(
    rt: &R,
    desk: &Desk<'a, T, E>,
    mut batch: Batch<'a>,
    feeder: &mut Feeder<T, E>,
) {
    is_twice(rt, desk, &mut batch, feeder);
    let batch = comes_back(rt, desk, batch, feeder);
    assert_eq!(rt; batch.listed().len(), 1);
    drop(batch);
    assert_eq!(rt; feeder.tally(), tally(2, 4));
    assert_eq!(rt; totals_of(rt, desk), totals(2, 4, 2, 1));
}

/// The one feeder of a desk submits two traces together, and the second one once more. Where memory is
/// refused there is no desk, or the batch is submitted again.
fn one_feeder<'a, T: Ledger, E: Ledger, R: Wait + Abort>(
    rt: &R,
    alloc: Global,
    traces: Blank,
    events: Blank,
    first: Source<'a>,
    second: Source<'a>,
)
    requires traces { (traces.name ≡ T.name) × (traces.parts ≡ T.parts) × (traces.parts ≡ 1) }
    requires events { (events.name ≡ E.name) × (events.parts ≡ E.parts) × (events.parts ≡ 1) }
{
    if let Ok((desk, mut feeders)) = Desk::<T, E>::new(alloc, traces, events, 1) {
        let mut feeder = feeders.pop().expect(rt, "a feeder");
        assert!(rt; feeders.is_empty());
        submit_first(
            rt,
            &desk,
            batch_of_two(rt, alloc, first, second),
            &mut feeder,
        );
        submit_again(rt, &desk, batch_of_one(rt, alloc, second), &mut feeder);
        drop(desk);
    }
}

// Under `rt try --test --fail-alloc N` one allocation is refused, another for each N.
#[test]
fn a_refused_batch_changes_nothing(rt: HostRuntime) -> Result<(), Fail> {
    let sources = sources_of(rt.alloc(), SAME_LABEL)?;
    assert_eq!(rt; sources.len(), 2);
    let (traces, events) = (Blank::new(1), Blank::new(1));
    one_feeder::<Brand, Brand, _>(&rt, rt.alloc(), traces, events, sources[0], sources[1]);
    Ok(())
}

/// The one feeder of a desk submits a batch, which stays as it is.
fn kept_batch<'a, T: Ledger, E: Ledger, R: Wait + Abort>(
    rt: &R,
    alloc: Global,
    traces: Blank,
    events: Blank,
    source: Source<'a>,
)
    requires traces { (traces.name ≡ T.name) × (traces.parts ≡ T.parts) × (traces.parts ≡ 1) }
    requires events { (events.name ≡ E.name) × (events.parts ≡ E.parts) × (events.parts ≡ 1) }
{
    if let Ok((desk, mut feeders)) = Desk::<T, E>::new(alloc, traces, events, 1) {
        let mut feeder = feeders.pop().expect(rt, "a feeder");
        assert!(rt; feeders.is_empty());
        let mut batch = batch_of_one(rt, alloc, source);
        let answer = desk.look(rt).submit_from(&mut feeder, &mut batch);
        assert_eq!(rt; answer, Ok(()));
        assert_eq!(rt; batch.listed().len(), 1);
        assert_eq!(rt; feeder.tally(), tally(1, 2));
        drop(batch);
        drop(desk);
    }
}

// Only want of memory may keep the batch out of the book, and here there is memory.
#[test]
fn a_submitted_batch_stays(rt: HostRuntime) -> Result<(), Fail> {
    let sources = sources_of(rt.alloc(), SAME_LABEL)?;
    assert_eq!(rt; sources.len(), 2);
    let (traces, events) = (Blank::new(1), Blank::new(1));
    kept_batch::<Brand, Brand, _>(&rt, rt.alloc(), traces, events, sources[0]);
    Ok(())
}
