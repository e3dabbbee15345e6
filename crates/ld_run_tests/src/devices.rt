//! Whole transfers by readers and writers of the library, and those that fail on the way.

use ld_io::{DeviceFault, Input, Output, ReadFault, Std, read_all, send};
use std::alloc::Global;
use std::io;
use std::test::Fail;

/// Gives the bytes of a slice, at most some of them a call. One of its reads, counted from 0, fails.
#[derive(Drop)]
pub struct CountingReader<'a> {
    rest: &'a [u8],
    at_most: usize,
    failing: Option<usize>,
    pub reads: usize,
}

impl<'a> CountingReader<'a> {
    pub fn new(bytes: &'a [u8], at_most: usize, failing: Option<usize>) -> CountingReader<'a> {
        CountingReader {
            rest: bytes,
            at_most,
            failing,
            reads: 0,
        }
    }
}

impl io::Read for CountingReader<'_> {
    fn read(&mut self, buffer: &mut [u8]) -> io::Result<usize> {
        let read = self.reads;
        self.reads = read.saturating_add(1);
        if self.failing == Some(read) {
            return Err(io::ErrorKind::Interrupted.into());
        }
        let count = self.at_most.min(buffer.len()).min(self.rest.len());
        let (given, rest) = self.rest.split_at(count);
        buffer[..count].copy_from_slice(given);
        self.rest = rest;
        Ok(count)
    }
}

/// What goes wrong at a writer, whose calls of each kind are counted from 0.
#[derive(Clone, Copy)]
pub enum Mishap {
    Nothing,
    WriteFails(usize),
    WriteTakesNothing(usize),
    FlushFails(usize),
}

/// Takes bytes into memory, at most some of them a call.
#[derive(Drop)]
pub struct CountingWriter {
    pub written: Vec<u8>,
    at_most: usize,
    mishap: Mishap,
    pub writes: usize,
    pub flushes: usize,
}

impl CountingWriter {
    pub fn new(alloc: Global, at_most: usize, mishap: Mishap) -> CountingWriter {
        CountingWriter {
            written: Vec::new(alloc),
            at_most,
            mishap,
            writes: 0,
            flushes: 0,
        }
    }
}

impl io::Write for CountingWriter {
    fn write(&mut self, buffer: &[u8]) -> io::Result<usize> {
        let write = self.writes;
        self.writes = write.saturating_add(1);
        let count = match self.mishap {
            Mishap::WriteFails(at) if at == write => {
                return Err(io::ErrorKind::Interrupted.into());
            }
            Mishap::WriteTakesNothing(at) if at == write => 0,
            _ => self.at_most.min(buffer.len()),
        };
        self.written.extend_from_slice(&buffer[..count])?;
        Ok(count)
    }

    fn flush(&mut self) -> io::Result<()> {
        let flush = self.flushes;
        self.flushes = flush.saturating_add(1);
        match self.mishap {
            Mishap::FlushFails(at) if at == flush => Err(io::ErrorKind::Interrupted.into()),
            _ => Ok(()),
        }
    }
}

const TEXT: &[u8] = b"trace a\nacquire t A\n";

// A body that answered want of memory for larger input would meet every contract.
#[test]
fn a_long_input_is_read_to_its_end(rt: HostRuntime) -> Result<(), Fail> {
    let long = TEXT.repeat(rt.alloc(), 10_000)?;
    let mut input = Std::new(long.as_slice());
    let bytes = read_all(rt.alloc(), &mut input)?;
    assert_eq!(rt; bytes.len(), 200_000);
    assert_eq!(rt; bytes.as_slice(), long.as_slice());
    assert!(rt; input.ended() && !input.failed());
    Ok(())
}

#[test]
fn a_read_that_fails_ends_the_reading(rt: HostRuntime) {
    for failing in 0..4usize {
        let mut reader = CountingReader::new(TEXT, 7, Some(failing));
        let mut input = Std::new(&mut reader);
        let fault = read_all(rt.alloc(), &mut input).err();
        assert_eq!(rt; fault, Some(ReadFault::Read));
        assert!(rt; input.failed() && !input.ended());
        drop(input);
        assert_eq!(rt; reader.reads, failing + 1);
    }
}

// Under `rt try --test --fail-alloc N` one allocation is refused, and the answer says so.
#[test]
fn a_refused_growth_is_told(rt: HostRuntime) {
    match read_all(rt.alloc(), &mut Std::new(TEXT)) {
        Ok(bytes) => assert_eq!(rt; bytes.as_slice(), TEXT),
        Err(fault) => assert_eq!(rt; fault, ReadFault::Memory),
    }
}

#[test]
fn a_text_is_written_in_parts_and_flushed_once(rt: HostRuntime) {
    for at_most in [1usize, 7, 20, 100] {
        let mut writer = CountingWriter::new(rt.alloc(), at_most, Mishap::Nothing);
        let mut output = Std::new(&mut writer);
        assert_eq!(rt; send(&mut output, TEXT), Ok(()));
        assert!(rt; !output.failed());
        drop(output);
        assert_eq!(rt; writer.written.as_slice(), TEXT);
        assert_eq!(rt; writer.writes, TEXT.len().div_ceil(at_most));
        assert_eq!(rt; writer.flushes, 1);
    }
}

#[test]
fn a_write_that_fails_ends_the_writing(rt: HostRuntime) {
    for failing in 0..3usize {
        for mishap in [
            Mishap::WriteFails(failing),
            Mishap::WriteTakesNothing(failing),
        ] {
            let mut writer = CountingWriter::new(rt.alloc(), 7, mishap);
            let mut output = Std::new(&mut writer);
            assert_eq!(rt; send(&mut output, TEXT), Err(DeviceFault));
            assert!(rt; output.failed());
            drop(output);
            assert_eq!(rt; writer.written.as_slice(), &TEXT[..7 * failing]);
            assert_eq!(rt; writer.writes, failing + 1);
            assert_eq!(rt; writer.flushes, 0);
        }
    }
}

#[test]
fn a_flush_that_fails_is_told(rt: HostRuntime) {
    let mut writer = CountingWriter::new(rt.alloc(), 7, Mishap::FlushFails(0));
    let mut output = Std::new(&mut writer);
    assert_eq!(rt; send(&mut output, TEXT), Err(DeviceFault));
    assert!(rt; output.failed());
    drop(output);
    assert_eq!(rt; writer.written.as_slice(), TEXT);
    assert_eq!(rt; writer.flushes, 1);
}
