//! Workers, one and several, where memory is refused, where there is much to read, and in turns.
ghost use Rattle.std.specs.Prelude.{◌≤◌};

use crate::common::{INVERSION, expect_first_once, expect_inversion, long_trace, sources_of};
use ld_test_gate::Meeting;
use ld_work::{Gate, MOST_FEEDERS, NoGate, Portion, WorkFault, work, work_by};
use std::alloc::Global;
use std::process::Abort;
use std::sync::Wait;
use std::sync::atomic::{AtomicU64, Ordering};
use std::test::Fail;
use std::thread;
use std::thread::Threads;

/// Asserts that this many workers give the book of `INVERSION`, or that memory was refused.
///
/// Under `rt try --test --fail-alloc N` one allocation is refused, in whichever thread takes it, and
/// another for each N. Where N is past the last, there is the book.
fn expect_inversion_or_memory<R>(rt: &R, alloc: Global, workers: usize) -> Result<(), Fail>
where
    R: Threads + Wait + Abort + Sync,
    requires { (1 ≤ workers) × (workers ≤ MOST_FEEDERS) }
{
    let sources = sources_of(alloc, INVERSION)?;
    match work(rt, alloc, &sources, workers, &NoGate) {
        Ok(book) => {
            expect_inversion(rt, &book);
            drop(book);
        }
        Err(fault) => assert_eq!(rt; fault, WorkFault::Memory),
    }
    Ok(())
}

#[test]
fn a_refused_growth_is_memory(rt: HostRuntime) -> Result<(), Fail> {
    expect_inversion_or_memory(&rt, rt.alloc(), 1)
}

#[test]
fn a_refused_growth_in_any_worker_is_memory(rt: HostRuntime) -> Result<(), Fail> {
    expect_inversion_or_memory(&rt, rt.alloc(), 4)
}

/// Asserts that two workers give a book of so many traces and events.
fn expect_totals<R>(
    rt: &R,
    alloc: Global,
    stream: &[u8],
    traces: u64,
    events: u64,
) -> Result<(), Fail>
where
    R: Threads + Wait + Abort + Sync,
{
    let sources = sources_of(alloc, stream)?;
    let book = work(rt, alloc, &sources, 2, &NoGate).expect(rt, "a book");
    assert_eq!(rt; book.totals().traces, traces);
    assert_eq!(rt; book.totals().events, events);
    drop(book);
    Ok(())
}

// Work that answered `Memory` where there is much to do would meet every contract.
#[test]
fn many_traces_are_read(rt: HostRuntime) -> Result<(), Fail> {
    let stream = b"trace x\nacquire t A\nacquire t B\n".repeat(rt.alloc(), 2_000)?;
    expect_totals(&rt, rt.alloc(), &stream, 2_000, 4_000)
}

#[test]
fn a_long_trace_is_read(rt: HostRuntime) -> Result<(), Fail> {
    let stream = long_trace(rt.alloc())?;
    expect_totals(&rt, rt.alloc(), &stream, 1, 20_000)
}

#[test]
fn sixteen_workers_meet(rt: HostRuntime) -> Result<(), Fail> {
    let stream = b"trace x\nacquire t A\nacquire t B\n".repeat(rt.alloc(), 16)?;
    let sources = sources_of(rt.alloc(), &stream)?;
    let gate = Meeting::new(rt.alloc(), 0..16, 16)?;
    drop(work(&rt, rt.alloc(), &sources, 16, &gate).expect(&rt, "a book"));
    assert_eq!(rt; gate.met(), 16);
    expect_first_once(&rt, gate.by_worker(), 16);
    Ok(())
}

/// Holds the worker that reads the first trace until the other one has come to number 12, and that one until
/// all numbers were drawn.
#[derive(Drop)]
struct InTurn {
    came: AtomicU64,
}

impl Gate for InTurn {
    fn pass(&self, _worker: u64, number: u64) {
        if number > 20 {
            return;
        }
        self.came.fetch_add(1, Ordering::SeqCst);
        let awaited = match number {
            0 => 13,
            12 => 21,
            _ => 0,
        };
        for _ in 0..10_000_000u64 {
            if self.came.load(Ordering::SeqCst) >= awaited {
                return;
            }
            thread::yield_now();
        }
        // Nobody else need wait for those that didn't come.
        self.came.fetch_add(awaited, Ordering::SeqCst);
    }
}

/// Asserts in which order two workers list 21 of these traces, if one waits with number 0 until the other one has
/// come to 12: what this one has handed on until then, and what the other one hands on next.
fn expect_in_turn<R>(
    rt: &R,
    alloc: Global,
    trace: &[u8],
    portion: Portion,
    first: &[u64],
) -> Result<(), Fail>
where
    R: Threads + Wait + Abort + Sync,
{
    let stream = trace.repeat(alloc, 21)?;
    let sources = sources_of(alloc, &stream)?;
    let gate = InTurn {
        came: AtomicU64::new(0),
    };
    let book = work_by(rt, alloc, &sources, 2, portion, &gate).expect(rt, "a book");
    assert_eq!(rt; book.totals().traces, 21);
    for (listed, number) in book.listed().iter().zip(first) {
        assert_eq!(rt; listed.source.number, *number);
    }
    drop(book);
    Ok(())
}

// By 8 traces the one hands on 1 to 8, the other one 0 and 13 to 19. By bytes it is after seven of these, which have
// 24 for each of 417 pairs of events and 8 for the header: seven have 70,112, six 60,096.
#[test]
fn traces_are_handed_on_together(rt: HostRuntime) -> Result<(), Fail> {
    let short = b"trace a\nacquire t A\nacquire t B\n";
    let eight = [1, 2, 3, 4, 5, 6, 7, 8, 0, 13, 14, 15, 16, 17, 18, 19];
    expect_in_turn(&rt, rt.alloc(), short, Portion::Traces, &eight)?;
    let mut long = b"trace a\n".repeat(rt.alloc(), 1)?;
    long.extend_from_slice(&b"acquire t A\nrelease t A\n".repeat(rt.alloc(), 417)?)?;
    let seven = [1, 2, 3, 4, 5, 6, 7, 0, 13, 14, 15, 16, 17, 18];
    expect_in_turn(&rt, rt.alloc(), &long, Portion::Bytes, &seven)
}
