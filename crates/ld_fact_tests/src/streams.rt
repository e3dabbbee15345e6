//! Streams and the traces that they are cut into.

use ld_trace::{Source, StreamFault, split};
use std::alloc::Global;
use std::process::Abort;
use std::test::Fail;

/// Whether a stream is refused with this fault.
fn refuses(alloc: Global, stream: &[u8], fault: StreamFault) -> bool {
    match split(alloc, stream) {
        Ok(_) => false,
        Err(found) => found == fault,
    }
}

/// The sources of a stream without a fault. Where memory for them is refused it is asked for again.
fn sources<'a, R: Abort>(rt: &R, alloc: Global, stream: &'a [u8]) -> Vec<Source<'a>> {
    match split(alloc, stream) {
        Ok(sources) => sources,
        Err(fault) => {
            assert!(rt; fault == StreamFault::Memory);
            split(alloc, stream).expect(rt, "sources, once memory is there")
        }
    }
}

/// A stream of so many headers `trace a`, and this line after them.
fn headers(alloc: Global, count: usize, last: &[u8]) -> Result<Vec<u8>, Fail> {
    let mut stream = Vec::new(alloc);
    for _ in 0..count {
        stream.extend_from_slice(b"trace a\n")?;
    }
    stream.extend_from_slice(last)?;
    Ok(stream)
}

#[test]
fn sections_end_before_the_next_header(rt: HostRuntime) {
    let stream =
        b"trace ab\nacquire t A\nacquire t B\nrelease t B\nrelease t A\ntrace ba\nacquire t B\nacquire t A\nrelease t A\nrelease t B\n";
    let sources = sources(&rt, rt.alloc(), stream);
    assert_eq!(rt; sources.len(), 2);
    let first = sources[0];
    assert_eq!(rt; first.number, 0);
    assert!(rt; first.name == b"ab".as_slice());
    assert_eq!(rt; first.first_line, 2);
    let expected = b"acquire t A\nacquire t B\nrelease t B\nrelease t A\n";
    assert!(rt; first.bytes == expected.as_slice());
    let second = sources[1];
    assert_eq!(rt; second.number, 1);
    assert!(rt; second.name == b"ba".as_slice());
    assert_eq!(rt; second.first_line, 7);
    let expected = b"acquire t B\nacquire t A\nrelease t A\nrelease t B\n";
    assert!(rt; second.bytes == expected.as_slice());
}

#[test]
fn a_stream_has_at_most_65535_traces(rt: HostRuntime) -> Result<(), Fail> {
    let most = headers(rt.alloc(), 65_535, b"")?;
    let sources = split(rt.alloc(), most.as_slice())?;
    assert_eq!(rt; sources.len(), 65_535);
    assert_eq!(rt; sources[65_534].number, 65_534);
    let more = headers(rt.alloc(), 65_536, b"")?;
    assert!(rt; refuses(rt.alloc(), more.as_slice(), StreamFault::TooManyTraces));
    let bad = headers(rt.alloc(), 65_535, b"trace")?;
    assert!(rt; refuses(rt.alloc(), bad.as_slice(), StreamFault::BadHeader(65_536)));
    Ok(())
}

// The list of traces is all the memory that `split` takes, so a fault needs none.
#[test]
fn a_refused_growth_is_told(rt: HostRuntime) {
    let stream = b"trace a\ntrace b\ntrace c\ntrace d\ntrace e\ntrace f\n";
    assert_eq!(rt; sources(&rt, rt.alloc(), stream).len(), 6);
    let faulty = b"trace a\ntrace b\ntrace c\ntrace d\ntrace e\ntrace";
    assert!(rt; refuses(rt.alloc(), faulty, StreamFault::BadHeader(6)));
}
