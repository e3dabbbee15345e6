//! The book and the report of a stream, by several workers, and where memory is refused.

use crate::texts::{
    EVERY_KIND, EVERY_KIND_REPORT, INVERSION, INVERSION_REPORT, THREE_TRACES, THREE_TRACES_REPORT,
};
use ld_book::Book;
use ld_check::{CheckFault, Checked, check, report_of};
use ld_report::report;
use ld_test_gate::Meeting;
use ld_work::NoGate;
use std::alloc::{AllocError, Global};
use std::process::Abort;
use std::sync::Wait;
use std::test::Fail;
use std::thread::Threads;

#[test]
fn sixteen_workers_meet(rt: HostRuntime) -> Result<(), Fail> {
    let stream = b"trace a\nacquire t A\n".repeat(rt.alloc(), 16)?;
    let gate = Meeting::new(rt.alloc(), 0..16, 16)?;
    let checked = check(&rt, rt.alloc(), &stream, 16, &gate).expect(&rt, "a book");
    assert_eq!(rt; gate.met(), 16);
    let text = report(rt.alloc(), &checked.book).expect(&rt, "a report");
    assert_eq!(rt;
        text.as_slice(),
        b"traces 16 refused 0 events 16 classes 1 dependencies 0\nclean\n".as_slice()
    );
    drop(checked);
    Ok(())
}

#[test]
fn two_workers_meet(rt: HostRuntime) -> Result<(), Fail> {
    let gate = Meeting::new(rt.alloc(), 0..1, 2)?;
    let report = report_of(&rt, rt.alloc(), INVERSION, 2, &gate).expect(&rt, "a report");
    assert_eq!(rt; gate.met(), 1);
    assert_eq!(rt; report.text.as_slice(), INVERSION_REPORT);
    Ok(())
}

/// The book of `THREE_TRACES`, whichever allocation is refused, as long as it is one alone.
fn three_traces<R: Threads + Wait + Abort + Sync>(rt: &R, alloc: Global) -> Checked<'static> {
    match check(rt, alloc, THREE_TRACES, 1, &NoGate) {
        Ok(checked) => checked,
        Err(fault) => {
            assert_eq!(rt; fault, CheckFault::Memory);
            check(rt, alloc, THREE_TRACES, 1, &NoGate).expect(rt, "a book")
        }
    }
}

/// Asserts that a book has the totals of `THREE_TRACES`.
fn expect_totals<R: Abort>(rt: &R, book: &Book<'_>) {
    let totals = book.totals();
    assert_eq!(rt; (totals.traces, totals.refused, totals.events), (3, 0, 6));
    assert_eq!(rt; (totals.classes, totals.dependencies), (3, 3));
}

// Under `rt try --test --fail-alloc N` one growth is refused: the report is then refused, and whole where it
// is made again.
#[test]
fn a_refused_report_leaves_the_book(rt: HostRuntime) {
    let checked = three_traces(&rt, rt.alloc());
    let text = match report(rt.alloc(), &checked.book) {
        Ok(text) => text,
        Err(AllocError) => {
            expect_totals(&rt, &checked.book);
            report(rt.alloc(), &checked.book).expect(&rt, "a report")
        }
    };
    assert_eq!(rt; text.as_slice(), THREE_TRACES_REPORT);
    expect_totals(&rt, &checked.book);
    drop(checked);
}

// Under `rt try --test --fail-alloc N` one growth is refused: the answer is then `Memory`, and the
// text where none is.
#[test]
fn a_refused_growth_is_memory(rt: HostRuntime) {
    match report_of(&rt, rt.alloc(), EVERY_KIND, 1, &NoGate) {
        Ok(report) => assert_eq!(rt; report.text.as_slice(), EVERY_KIND_REPORT),
        Err(fault) => assert_eq!(rt; fault, CheckFault::Memory),
    }
}
