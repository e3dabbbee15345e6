//! Runs over streams of several pieces, whose traces workers read while the next piece is read.

ghost use Rattle.std.specs.Prelude.{◌≤◌};

use crate::fakes::{FakeReader, FakeWriter, Mishap};
use ld_check::{MOST_WORKERS, RunFault, run};
use ld_io::Input;
use ld_report::Verdict;
use ld_trace::StreamFault;
use std::alloc::{AllocError, Global};
use std::process::Abort;
use std::sync::Wait;
use std::test::Fail;
use std::thread::Threads;

/// Traces of five lines and some 1,000 bytes, 600 KB in all.
fn long_stream(alloc: Global) -> Result<String, AllocError> {
    let filling = "0123456789".repeat(alloc, 100)?;
    let mut stream = String::new(alloc);
    for number in 0..600u32 {
        writeln!(
            stream,
            "trace t{number}\n# no event\n# {filling}\nacquire t A\nacquire t B"
        )?;
    }
    Ok(stream)
}

const LONG_REPORT: &[u8] = b"traces 600 refused 0 events 1200 classes 2 dependencies 1\nclean\n";

/// Asserts that a run over this stream, with a read that fails if there is one, gives this answer.
fn assert_told<R: Threads + Wait + Abort + Sync>(
    rt: &R,
    alloc: Global,
    stream: &[u8],
    failing: Option<usize>,
    wanted: Result<Verdict, RunFault>,
    workers: usize,
)
    requires { (1 ≤ workers) × (workers ≤ MOST_WORKERS) }
{
    let mut input = FakeReader::new(stream, 50_021, failing);
    let mut output = FakeWriter::new(alloc, 1_000, Mishap::Nothing);
    let outcome = run(rt, alloc, &mut input, &mut output, workers);
    assert_eq!(rt; outcome, wanted, "by {workers}");
    match wanted {
        Ok(_) => assert_eq!(rt; output.written(), LONG_REPORT),
        Err(_) => assert_eq!(rt; output.written(), b"".as_slice()),
    }
    assert!(rt; input.failed() == (wanted == Err(RunFault::Read)));
}

/// The same of 1 to 16 workers.
fn assert_told_by_each<R: Threads + Wait + Abort + Sync>(
    rt: &R,
    alloc: Global,
    stream: &[u8],
    failing: Option<usize>,
    wanted: Result<Verdict, RunFault>,
) {
    assert_told(rt, alloc, stream, failing, wanted, 1);
    assert_told(rt, alloc, stream, failing, wanted, 2);
    assert_told(rt, alloc, stream, failing, wanted, 4);
    assert_told(rt, alloc, stream, failing, wanted, 16);
}

#[test]
fn several_pieces_are_reported(rt: HostRuntime) -> Result<(), Fail> {
    let stream = long_stream(rt.alloc())?;
    assert_told_by_each(&rt, rt.alloc(), stream.as_bytes(), None, Ok(Verdict::Clean));
    Ok(())
}

#[test]
fn a_fault_of_the_last_piece_is_told(rt: HostRuntime) -> Result<(), Fail> {
    let mut stream = long_stream(rt.alloc())?;
    stream.push_str("trace a b\n")?;
    let fault = RunFault::Stream(StreamFault::BadHeader(3_001));
    assert_told_by_each(&rt, rt.alloc(), stream.as_bytes(), None, Err(fault));
    Ok(())
}

#[test]
fn a_read_that_fails_behind_some_pieces_is_read(rt: HostRuntime) -> Result<(), Fail> {
    let stream = long_stream(rt.alloc())?;
    for failing in [0usize, 1, 6, 7, 11] {
        let wanted = Err(RunFault::Read);
        assert_told_by_each(&rt, rt.alloc(), stream.as_bytes(), Some(failing), wanted);
    }
    Ok(())
}
