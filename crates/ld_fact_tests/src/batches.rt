//! Batches, where memory is refused and where there are many traces.

use ld_class::{ClassName, Usage};
use ld_facts::{Batch, Outcome, Witness, WitnessedEdge, WitnessedUse};
use ld_trace::{Source, split};
use std::alloc::AllocError;
use std::process::Abort;
use std::test::Fail;

/// Pushes a trace whose number is above the last one's.
fn push<'a, R: Abort>(rt: &R, batch: &mut Batch<'a>, source: Source<'a>) -> Result<(), AllocError> {
    assert!(rt; source.fits());
    match batch.listed().last() {
        Some(last) => {
            let number = last.source.number;
            assert!(rt; number < source.number);
            batch.push(source)
        }
        None => batch.push(source),
    }
}

/// A batch of these traces. What was refused memory is tried once more.
fn batch_of<'a, R: AllocGlobal + Abort>(rt: &R, sources: &[Source<'a>]) -> Batch<'a> {
    let mut batch = Batch::new(rt.alloc());
    fill(rt, &mut batch, sources);
    batch
}

/// Pushes these traces. What was refused memory is tried once more.
fn fill<'a, R: Abort>(rt: &R, batch: &mut Batch<'a>, sources: &[Source<'a>]) {
    for source in sources {
        if push(rt, batch, *source).is_err() {
            push(rt, batch, *source).expect(rt, "memory");
        }
    }
}

/// The sources of a stream. What was refused memory is tried once more.
fn sources_of<'a, R: AllocGlobal + Abort>(rt: &R, bytes: &'a [u8]) -> Vec<Source<'a>> {
    match split(rt.alloc(), bytes) {
        Ok(sources) => sources,
        Err(_) => split(rt.alloc(), bytes).expect(rt, "the sources of a stream"),
    }
}

/// Two traces; the second one has a class, dependencies and bits that the first one hasn't.
const TWO: &[u8] =
    b"trace a\nacquire t A\nacquire t B\ntrace b\nacquire t B\nacquire t C\nacquire t A\n";

fn edge(from: u32, to: u32, number: u64, line: u64) -> WitnessedEdge {
    WitnessedEdge {
        from,
        to,
        witness: Witness { number, line },
    }
}

fn used(class: u32, bit: Usage, number: u64, line: u64) -> WitnessedUse {
    WitnessedUse {
        class,
        bit,
        witness: Witness { number, line },
    }
}

fn batch_name<'a, R: Abort>(rt: &R, batch: &Batch<'a>, class: u32) -> ClassName<'a> {
    assert!(rt; (class as usize) < batch.classes().len());
    batch.classes().name(class)
}

fn has_edge(batch: &Batch<'_>, edge: WitnessedEdge) -> bool {
    for other in batch.edges() {
        if other == edge {
            return true;
        }
    }
    false
}

/// How many dependencies the batch has.
fn edge_count(batch: &Batch<'_>) -> usize {
    let mut count: usize = 0;
    for _ in batch.edges() {
        count = count.saturating_add(1);
    }
    count
}

/// Asserts that the batch has these lists.
fn assert_lists<R: Abort>(
    rt: &R,
    batch: &Batch<'_>,
    classes: &[&[u8]],
    edges: &[WitnessedEdge],
    usage: &[WitnessedUse],
) {
    assert_eq!(rt; batch.classes().len(), classes.len());
    for (id, name) in classes.iter().enumerate() {
        assert_eq!(rt;
            batch_name(rt, batch, id as u32),
            ClassName { name, sub: 0 }
        );
    }
    assert_eq!(rt; edge_count(batch), edges.len());
    for edge in edges {
        assert!(rt; has_edge(batch, *edge));
    }
    assert_eq!(rt; batch.usage().len(), usage.len());
    assert!(rt; usage.iter().all(|used| batch.usage().contains(used)));
}

/// Asserts that the batch has just the first one of `TWO`.
fn assert_first<R: Abort>(rt: &R, batch: &Batch<'_>) {
    assert_eq!(rt; batch.listed().len(), 1);
    assert_eq!(rt; batch.listed()[0].outcome, Outcome::Read { events: 2 });
    let usage = [
        used(0, Usage::ON_HARD, 0, 2),
        used(0, Usage::ON_SOFT, 0, 2),
        used(1, Usage::ON_HARD, 0, 3),
        used(1, Usage::ON_SOFT, 0, 3),
    ];
    assert_lists(rt, batch, &[b"A", b"B"], &[edge(0, 1, 0, 3)], &usage);
}

/// Asserts that the batch has just both of `TWO`.
fn assert_both<R: Abort>(rt: &R, batch: &Batch<'_>) {
    assert_eq!(rt; batch.listed().len(), 2);
    assert_eq!(rt; batch.listed()[0].outcome, Outcome::Read { events: 2 });
    assert_eq!(rt; batch.listed()[1].outcome, Outcome::Read { events: 3 });
    let edges = [
        edge(0, 1, 0, 3),
        edge(1, 2, 1, 6),
        edge(1, 0, 1, 7),
        edge(2, 0, 1, 7),
    ];
    let usage = [
        used(0, Usage::ON_HARD, 0, 2),
        used(0, Usage::ON_SOFT, 0, 2),
        used(1, Usage::ON_HARD, 0, 3),
        used(1, Usage::ON_SOFT, 0, 3),
        used(2, Usage::ON_HARD, 1, 6),
        used(2, Usage::ON_SOFT, 1, 6),
    ];
    assert_lists(rt, batch, &[b"A", b"B", b"C"], &edges, &usage);
}

#[test]
fn a_refused_push_changes_nothing(rt: HostRuntime) {
    let sources = sources_of(&rt, TWO);
    assert_eq!(rt; sources.len(), 2);
    let (first, second) = (sources[0], sources[1]);
    let mut batch = batch_of(&rt, &[first]);
    if push(&rt, &mut batch, second).is_err() {
        assert_first(&rt, &batch);
        push(&rt, &mut batch, second).expect(&rt, "memory");
    }
    assert_both(&rt, &batch);
    drop(batch);
}

// Only want of memory may keep a trace out of a batch, and here there is memory.
#[test]
fn fourteen_traces_are_pushed(rt: HostRuntime) -> Result<(), Fail> {
    let stream = b"trace a\nacquire t A\nacquire t B\n".repeat(rt.alloc(), 14)?;
    let sources = sources_of(&rt, &stream);
    let batch = batch_of(&rt, &sources);
    assert_eq!(rt; batch.listed().len(), 14);
    assert_eq!(rt; edge_count(&batch), 1);
    assert!(rt; has_edge(&batch, edge(0, 1, 0, 3)));
    drop(batch);
    Ok(())
}
