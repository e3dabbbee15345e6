//! Books, where memory is refused and where there are many traces. Each call that takes memory is made once
//! more where it was refused, so what stands on these holds whichever allocation fails.

use ld_book::{Alarms, Batch, BatchRefusal, Book, ClassName, CycleRow, Findings, Refusal, Totals};
use ld_facts::{Facts, Witness, facts};
use ld_trace::{Source, split};
use std::alloc::{AllocError, Global};
use std::process::Abort;
use std::test::Fail;

const A: ClassName<'static> = ClassName { name: b"A", sub: 0 };

const B: ClassName<'static> = ClassName { name: b"B", sub: 0 };

const C: ClassName<'static> = ClassName { name: b"C", sub: 0 };

/// The alarms of a book without a violation.
const NONE: Alarms<'static> = Alarms {
    cycle: None,
    conflict: [None; 2],
    forbidden: [None; 2],
};

/// Three traces, each of which shows one dependency of a cycle.
const THREE_TRACES: &[u8] = b"trace x\nacquire t A\nacquire t B\n\
    trace y\nacquire t B\nacquire t C\ntrace z\nacquire t C\nacquire t A\n";

/// The sources of a stream.
fn sources_of<'a, R: Abort>(rt: &R, alloc: Global, bytes: &'a [u8]) -> Vec<Source<'a>> {
    match split(alloc, bytes) {
        Ok(sources) => sources,
        Err(_) => split(alloc, bytes).expect(rt, "the sources of a stream"),
    }
}

/// The facts of the trace of that number.
fn facts_of<'a, R: Abort>(rt: &R, alloc: Global, bytes: &'a [u8], number: usize) -> Facts<'a> {
    let sources = sources_of(rt, alloc, bytes);
    assert!(rt; number < sources.len());
    let source = sources[number];
    assert!(rt; source.fits());
    match facts(alloc, source) {
        Ok(facts) => facts,
        Err(AllocError) => facts(alloc, source).expect(rt, "the facts of a trace"),
    }
}

/// Adds a trace that isn't listed. The facts come back where memory is refused.
fn try_add<'a, R: Abort>(rt: &R, book: &mut Book<'a>, facts: Facts<'a>) -> Option<Facts<'a>> {
    match book.add(facts) {
        Ok(()) => None,
        Err(Refusal::Memory(facts)) => Some(facts),
        Err(Refusal::Twice(facts)) => {
            assert!(rt; false);
            Some(facts)
        }
    }
}

/// Adds a trace that isn't listed, where memory isn't refused.
fn add_now<'a, R: Abort>(rt: &R, book: &mut Book<'a>, facts: Facts<'a>) {
    let back = try_add(rt, book, facts);
    assert!(rt; back.is_none());
    drop(back);
}

/// Adds the trace of that number. Where memory is refused the facts come back, the book is as
/// before, and the call made again answers `Ok`.
fn add<'a, R: Abort>(rt: &R, alloc: Global, book: &mut Book<'a>, bytes: &'a [u8], number: usize) {
    let facts = facts_of(rt, alloc, bytes, number);
    let before = book.totals();
    let listed = book.listed().len();
    if let Some(facts) = try_add(rt, book, facts) {
        assert_eq!(rt; book.totals(), before);
        assert_eq!(rt; book.listed().len(), listed);
        add_now(rt, book, facts);
    }
}

/// The book of a stream, whose traces are added in this order.
fn book_of<'a, R: Abort>(rt: &R, alloc: Global, bytes: &'a [u8], order: &[usize]) -> Book<'a> {
    let mut book = Book::new(alloc);
    for number in order {
        add(rt, alloc, &mut book, bytes, *number);
    }
    book
}

fn expect_totals<R: Abort>(rt: &R, book: &Book<'_>, wanted: Totals) {
    assert_eq!(rt; book.totals(), wanted);
}

/// Asserts the first witness of a dependency, or that the book has none.
fn expect_edge<R: Abort>(
    rt: &R,
    book: &Book<'_>,
    from: ClassName<'_>,
    to: ClassName<'_>,
    wanted: Option<Witness>,
) {
    assert_eq!(rt; book.edge(from, to), wanted);
}

fn witness(number: u64, line: u64) -> Option<Witness> {
    Some(Witness { number, line })
}

fn totals(traces: u64, refused: u64, events: u64, classes: u64, dependencies: u64) -> Totals {
    Totals {
        traces,
        refused,
        events,
        classes,
        dependencies,
    }
}

/// Adds the second of three traces to a book of the first, where a growth may be refused: the book
/// is then as before, and the facts that came back can be added again.
#[test]
fn a_refused_add_changes_nothing(rt: HostRuntime) {
    let mut book = book_of(&rt, rt.alloc(), THREE_TRACES, &[0]);
    let facts = facts_of(&rt, rt.alloc(), THREE_TRACES, 1);
    if let Some(facts) = try_add(&rt, &mut book, facts) {
        expect_totals(&rt, &book, totals(1, 0, 2, 2, 1));
        expect_edge(&rt, &book, B, C, None);
        assert!(rt; book.usage(C).is_none());
        assert_eq!(rt; book.alarms(), NONE);
        add_now(&rt, &mut book, facts);
    }
    expect_totals(&rt, &book, totals(2, 0, 4, 3, 2));
    drop(book);
}

/// Only want of memory may keep a book from growing.
#[test]
fn more_than_a_thousand_traces_are_listed(rt: HostRuntime) {
    let bytes = b"trace n\nacquire t A\nacquire t B\n"
        .repeat(rt.alloc(), 1001)
        .expect(&rt, "a text");
    let sources = split(rt.alloc(), &bytes).expect(&rt, "the sources of a stream");
    let mut book = Book::new(rt.alloc());
    for source in &sources {
        assert!(rt; source.fits());
        let facts = facts(rt.alloc(), *source).expect(&rt, "the facts of a trace");
        add_now(&rt, &mut book, facts);
    }
    expect_totals(&rt, &book, totals(1001, 0, 2002, 2, 1));
    drop(book);
}

/// Reads one more trace, whose number is above that of the last one.
fn push<'a, R: Abort>(rt: &R, batch: &mut Batch<'a>, source: Source<'a>) -> Result<(), AllocError> {
    assert!(rt; source.fits());
    match batch.listed().last() {
        Some(last) => {
            let number = last.source.number;
            assert!(rt; number < source.number);
            batch.push(source)
        }
        None => batch.push(source),
    }
}

/// A batch of these traces, whose numbers rise. What was refused memory is tried once more.
fn batch_of<'a, R: Abort>(rt: &R, alloc: Global, sources: &[Source<'a>]) -> Batch<'a> {
    let mut batch = Batch::new(alloc);
    fill(rt, &mut batch, sources);
    batch
}

/// Pushes these traces, whose numbers rise. What was refused memory is tried once more.
fn fill<'a, R: Abort>(rt: &R, batch: &mut Batch<'a>, sources: &[Source<'a>]) {
    for source in sources {
        if push(rt, batch, *source).is_err() {
            push(rt, batch, *source).expect(rt, "memory for a trace");
        }
    }
}

/// Adds a batch no number of which is listed. It comes back where memory is refused.
fn try_add_batch<'a, R: Abort>(rt: &R, book: &mut Book<'a>, batch: Batch<'a>) -> Option<Batch<'a>> {
    match book.add_batch(batch) {
        Ok(()) => None,
        Err(BatchRefusal::Memory(batch)) => Some(batch),
        Err(BatchRefusal::Twice(batch)) => {
            assert!(rt; false);
            Some(batch)
        }
    }
}

/// Adds such a batch. Where memory is refused it is added once more.
fn add_batch<'a, R: Abort>(rt: &R, book: &mut Book<'a>, batch: Batch<'a>) {
    if let Some(batch) = try_add_batch(rt, book, batch) {
        let back = try_add_batch(rt, book, batch);
        assert!(rt; back.is_none());
        drop(back);
    }
}

/// Adds a batch of the second of three traces to a book of the first, where a growth may be refused: the
/// book is then as before, and the batch that came back can be added again.
#[test]
fn a_refused_batch_changes_nothing(rt: HostRuntime) {
    let mut book = book_of(&rt, rt.alloc(), THREE_TRACES, &[0]);
    let sources = sources_of(&rt, rt.alloc(), THREE_TRACES);
    assert_eq!(rt; sources.len(), 3);
    let batch = batch_of(&rt, rt.alloc(), &sources[1..2]);
    if let Some(batch) = try_add_batch(&rt, &mut book, batch) {
        expect_totals(&rt, &book, totals(1, 0, 2, 2, 1));
        expect_edge(&rt, &book, B, C, None);
        assert!(rt; book.usage(C).is_none());
        assert_eq!(rt; book.alarms(), NONE);
        let back = try_add_batch(&rt, &mut book, batch);
        assert!(rt; back.is_none());
        drop(back);
    }
    expect_totals(&rt, &book, totals(2, 0, 4, 3, 2));
    drop(book);
}

// Only want of memory may keep a batch of many traces out, and here there is memory.
#[test]
fn a_batch_of_twenty_traces_is_added(rt: HostRuntime) {
    let stream = b"trace a\nacquire t A\nacquire t B\n"
        .repeat(rt.alloc(), 20)
        .expect(&rt, "a stream");
    let sources = sources_of(&rt, rt.alloc(), &stream);
    let mut book = Book::new(rt.alloc());
    add_batch(&rt, &mut book, batch_of(&rt, rt.alloc(), &sources));
    expect_totals(&rt, &book, totals(20, 0, 40, 2, 1));
    expect_edge(&rt, &book, A, B, witness(0, 3));
    drop(book);
}

#[test]
fn traces_show_their_dependencies_together(rt: HostRuntime) {
    let book = book_of(&rt, rt.alloc(), THREE_TRACES, &[2, 0, 1]);
    expect_totals(&rt, &book, totals(3, 0, 6, 3, 3));
    expect_edge(&rt, &book, A, B, witness(0, 3));
    expect_edge(&rt, &book, B, C, witness(1, 6));
    expect_edge(&rt, &book, C, A, witness(2, 9));
    expect_edge(&rt, &book, A, C, None);
    let numbers = [2, 0, 1];
    assert_eq!(rt; book.listed().len(), numbers.len());
    for (listed, number) in book.listed().iter().zip(numbers) {
        assert_eq!(rt; listed.source.number, number);
    }
    drop(book);
}

/// Asserts what a row says of a dependency on a cycle.
fn expect_cycle<R: Abort>(
    rt: &R,
    row: &CycleRow<'_, '_>,
    ends: (ClassName<'_>, ClassName<'_>),
    at: Option<Witness>,
    via: &[ClassName<'_>],
) {
    assert_eq!(rt; (row.from, row.to), ends);
    assert_eq!(rt; Some(row.at), at);
    let names = row.via.names();
    assert_eq!(rt; names.len(), via.len());
    for (place, name) in via.iter().enumerate() {
        assert_eq!(rt; names.name(place), *name);
    }
}

/// Asserts the violations of three traces that are on one cycle.
fn expect_three_cycles<R: Abort>(rt: &R, findings: &Findings<'_, '_>) {
    let cycles = findings.cycles.items();
    assert_eq!(rt; cycles.len(), 3);
    expect_cycle(rt, &cycles[0], (A, B), witness(0, 3), &[B, C, A]);
    expect_cycle(rt, &cycles[1], (B, C), witness(1, 6), &[C, A, B]);
    expect_cycle(rt, &cycles[2], (C, A), witness(2, 9), &[A, B, C]);
    assert!(rt; findings.conflicts.items().is_empty());
    assert_eq!(rt; findings.forbidden.hard.len(), 0);
    assert_eq!(rt; findings.forbidden.soft.len(), 0);
}

/// Asserts the findings of a book of three traces that are on one cycle, where they aren't refused.
fn expect_findings<R: Abort>(rt: &R, alloc: Global, book: &Book<'_>) -> Result<(), AllocError> {
    let findings = book.findings(alloc)?;
    expect_three_cycles(rt, &findings);
    drop(findings);
    Ok(())
}

#[test]
fn findings_are_refused_or_whole(rt: HostRuntime) {
    let book = book_of(&rt, rt.alloc(), THREE_TRACES, &[2, 0, 1]);
    if expect_findings(&rt, rt.alloc(), &book).is_err() {
        expect_totals(&rt, &book, totals(3, 0, 6, 3, 3));
        expect_findings(&rt, rt.alloc(), &book).expect(&rt, "the findings");
    }
    expect_totals(&rt, &book, totals(3, 0, 6, 3, 3));
    drop(book);
}

/// Each of a hundred classes is acquired under itself, and in a hard handler too. Findings that are
/// refused where they are many would meet every contract.
#[test]
fn a_hundred_rows_of_each_kind_are_found(rt: HostRuntime) -> Result<(), Fail> {
    let mut stream = String::from_str(rt.alloc(), "trace v\n")?;
    for number in 0..100u32 {
        writeln!(stream, "acquire t c{number}@1\nacquire t c{number}@2")?;
        writeln!(stream, "release t c{number}@2\nrelease t c{number}@1")?;
        writeln!(
            stream,
            "enter t hard\nacquire t c{number}\nrelease t c{number}\nexit t hard"
        )?;
    }
    let book = book_of(&rt, rt.alloc(), stream.as_bytes(), &[0]);
    let findings = book.findings(rt.alloc()).expect(&rt, "the findings");
    assert_eq!(rt; findings.cycles.items().len(), 100);
    assert_eq!(rt; findings.conflicts.items().len(), 100);
    assert_eq!(rt; findings.forbidden.hard.len(), 100);
    assert_eq!(rt; findings.forbidden.soft.len(), 0);
    drop(findings);
    drop(book);
    Ok(())
}
