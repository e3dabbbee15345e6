//! Runs over devices that fail, with memory that is refused, and of a long stream.

ghost use Rattle.std.specs.Prelude.{◌≤◌};

use crate::fakes::{FakeReader, FakeWriter, Mishap};
use crate::texts::{
    FORBIDDEN_THROUGH, FORBIDDEN_THROUGH_REPORT, INVERSION, INVERSION_REPORT, TWENTY_EQUAL,
    TWENTY_EQUAL_REPORT,
};
use ld_check::{MOST_WORKERS, NoGate, RunFault, report_of, run};
use ld_io::{Input, Output, Std};
use ld_report::Verdict;
use std::alloc::Global;
use std::io;
use std::io::Cursor;
use std::process::Abort;
use std::sync::Wait;
use std::test::Fail;
use std::thread::Threads;

/// A std reader of a slice, which gives 40 bytes a read. One of its reads, counted from 0, is interrupted.
#[derive(Drop)]
struct Interrupted<'a> {
    rest: &'a [u8],
    reads: usize,
    failing: usize,
}

impl io::Read for Interrupted<'_> {
    fn read(&mut self, buffer: &mut [u8]) -> io::Result<usize> {
        let read = self.reads;
        self.reads = read.saturating_add(1);
        if read == self.failing {
            return Err(io::ErrorKind::Interrupted.into());
        }
        let count = 40usize.min(buffer.len()).min(self.rest.len());
        let (given, rest) = self.rest.split_at(count);
        buffer[..count].copy_from_slice(given);
        self.rest = rest;
        Ok(count)
    }
}

#[test]
fn a_read_that_fails_is_read(rt: HostRuntime) {
    // Each read in turn, the last of which finds the end.
    let reads = INVERSION.len().div_ceil(7) + 1;
    for failing in 0..reads {
        let mut input = FakeReader::new(INVERSION, 7, Some(failing));
        let mut output = FakeWriter::new(rt.alloc(), 5, Mishap::Nothing);
        let outcome = run(&rt, rt.alloc(), &mut input, &mut output, 1);
        assert_eq!(rt; outcome, Err(RunFault::Read), "at read {failing}");
        assert!(rt; input.failed() && !input.ended());
        assert_eq!(rt; output.written(), b"".as_slice());
        assert!(rt; !output.failed());
    }
    let mut input = FakeReader::new(INVERSION, 7, Some(reads));
    let mut output = FakeWriter::new(rt.alloc(), 5, Mishap::Nothing);
    let outcome = run(&rt, rt.alloc(), &mut input, &mut output, 1);
    assert_eq!(rt; outcome, Ok(Verdict::Violations));
}

#[test]
fn an_interrupted_read_is_read(rt: HostRuntime) {
    // Each read in turn, the last of which finds the end.
    for failing in 0..INVERSION.len().div_ceil(40) + 1 {
        let mut input = Std::new(Interrupted {
            rest: INVERSION,
            reads: 0,
            failing,
        });
        let mut output = FakeWriter::new(rt.alloc(), 5, Mishap::Nothing);
        let outcome = run(&rt, rt.alloc(), &mut input, &mut output, 2);
        assert_eq!(rt; outcome, Err(RunFault::Read), "at read {failing}");
        assert_eq!(rt; output.written(), b"".as_slice());
    }
}

#[test]
fn a_write_that_fails_is_write(rt: HostRuntime) {
    for failing in 0..INVERSION_REPORT.len().div_ceil(5) {
        for mishap in [
            Mishap::WriteFails(failing),
            Mishap::WriteTakesNothing(failing),
        ] {
            let mut input = FakeReader::new(INVERSION, 40, None);
            let mut output = FakeWriter::new(rt.alloc(), 5, mishap);
            let outcome = run(&rt, rt.alloc(), &mut input, &mut output, 1);
            assert_eq!(rt; outcome, Err(RunFault::Write), "at write {failing}");
            assert_eq!(rt; output.written().len(), 5 * failing);
            assert!(rt; INVERSION_REPORT.starts_with(output.written()));
            assert!(rt; output.failed() && !output.is_flushed());
        }
    }
}

#[test]
fn a_flush_that_fails_is_write(rt: HostRuntime) {
    let mut input = FakeReader::new(INVERSION, 40, None);
    let mut output = FakeWriter::new(rt.alloc(), 5, Mishap::FlushFails);
    let outcome = run(&rt, rt.alloc(), &mut input, &mut output, 1);
    assert_eq!(rt; outcome, Err(RunFault::Write));
    assert_eq!(rt; output.written(), INVERSION_REPORT);
    assert!(rt; output.failed() && !output.is_flushed());
}

// The texts of the other faults are seen where the program is run.
#[test]
fn an_uneven_book_has_its_text(rt: HostRuntime) -> Result<(), Fail> {
    let told = format!(in rt.alloc(); "{}", RunFault::Uneven(3))?;
    assert_eq!(rt; told.as_str(), "uneven at 3");
    Ok(())
}

// A run that answered `Memory` for a longer stream or a longer report would meet every contract.
#[test]
fn two_thousand_traces_are_reported(rt: HostRuntime) -> Result<(), Fail> {
    let mut stream = String::new(rt.alloc());
    let mut wanted = String::from_str(
        rt.alloc(),
        "traces 2000 refused 1000 events 2000 classes 2 dependencies 1\n",
    )?;
    for number in 0..1_000u32 {
        writeln!(stream, "trace t{number}\nacquire t A\nacquire t B")?;
        writeln!(stream, "trace u{number}\nrelease t A")?;
        writeln!(wanted, "refused u{number} line {} NotHeld", 5 * number + 5)?;
    }
    wanted.push_str("clean\n")?;
    let mut text = Vec::new(rt.alloc());
    let mut input = Std::new(stream.as_bytes());
    let verdict = run(&rt, rt.alloc(), &mut input, &mut Std::new(&mut text), 4);
    assert_eq!(rt; verdict, Ok(Verdict::Refused));
    assert_eq!(rt; text.as_slice(), wanted.as_bytes());
    let whole = report_of(&rt, rt.alloc(), stream.as_bytes(), 4, &NoGate);
    let report = whole.expect(&rt, "a report of the whole stream");
    assert_eq!(rt; report.text.as_slice(), wanted.as_bytes());
    Ok(())
}

// Under `rt try --test --fail-alloc N` one allocation is refused, another for each N, whichever thread
// asks for it.

#[test]
fn a_refused_growth_writes_nothing(rt: HostRuntime) {
    let wanted = (INVERSION_REPORT, Verdict::Violations);
    assert_whole_or_nothing(&rt, rt.alloc(), INVERSION, wanted, 1);
}

#[test]
fn a_refused_growth_of_a_longer_walk_writes_nothing(rt: HostRuntime) {
    let wanted = (FORBIDDEN_THROUGH_REPORT, Verdict::Violations);
    assert_whole_or_nothing(&rt, rt.alloc(), FORBIDDEN_THROUGH, wanted, 1);
}

#[test]
fn a_refused_growth_of_twenty_traces_writes_nothing(rt: HostRuntime) {
    let wanted = (TWENTY_EQUAL_REPORT, Verdict::Clean);
    assert_whole_or_nothing(&rt, rt.alloc(), TWENTY_EQUAL, wanted, 1);
}

#[test]
fn a_refused_growth_of_four_workers_writes_nothing(rt: HostRuntime) {
    let wanted = (INVERSION_REPORT, Verdict::Violations);
    assert_whole_or_nothing(&rt, rt.alloc(), INVERSION, wanted, 4);
}

#[test]
fn a_refused_growth_of_four_workers_on_a_longer_walk_writes_nothing(rt: HostRuntime) {
    let wanted = (FORBIDDEN_THROUGH_REPORT, Verdict::Violations);
    assert_whole_or_nothing(&rt, rt.alloc(), FORBIDDEN_THROUGH, wanted, 4);
}

#[test]
fn a_refused_growth_of_four_workers_on_twenty_traces_writes_nothing(rt: HostRuntime) {
    let wanted = (TWENTY_EQUAL_REPORT, Verdict::Clean);
    assert_whole_or_nothing(&rt, rt.alloc(), TWENTY_EQUAL, wanted, 4);
}

/// Asserts that a run over this stream writes this whole report and answers this verdict, or answers
/// `Memory` and writes nothing.
fn assert_whole_or_nothing<R: Threads + Wait + Abort + Sync>(
    rt: &R,
    alloc: Global,
    stream: &[u8],
    wanted: (&[u8], Verdict),
    workers: usize,
)
    requires { (1 ≤ workers) × (workers ≤ MOST_WORKERS) }
{
    let (text, verdict) = wanted;
    let mut room = [b'-'; 256];
    let mut input = FakeReader::new(stream, 40, None);
    let mut output = Std::new(Cursor::new(room.as_mut_slice()));
    match run(rt, alloc, &mut input, &mut output, workers) {
        Ok(answer) => {
            assert_eq!(rt; answer, verdict);
            assert!(rt; room.starts_with(text));
            assert!(rt; room[text.len()..].iter().all(|byte| *byte == b'-'));
        }
        Err(fault) => {
            assert_eq!(rt; fault, RunFault::Memory);
            assert!(rt; room.iter().all(|byte| *byte == b'-'));
        }
    }
}
