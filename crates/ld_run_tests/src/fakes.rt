//! A reader and a writer in memory, which move some bytes a call and fail where they are told to.
ghost use Rattle.std.specs.Prelude.{◌≡◌, ◌<◌, [], false, true, Some};

use ld_io::{DeviceFault, Input, Output};
use std::alloc::Global;

/// Gives the bytes of a slice, at most some of them a call.
#[derive(Drop)]
pub struct FakeReader<'a> {
    rest: &'a [u8],
    at_most: usize,
    // How many calls were made, and which of them, from 0, fails.
    calls: usize,
    failing_call: Option<usize>,
    failed: bool,
    ended: bool,
    ghost gives_some: { 0 < at_most },
}

impl<'a> FakeReader<'a> {
    /// A reader of the bytes, at most `at_most` a call, of which the call of that number fails.
    pub fn new(bytes: &'a [u8], at_most: usize, failing_call: Option<usize>) -> FakeReader<'a>
        requires { 0 < at_most }
        ensures fresh { (result.failed ≡ false) × (result.ended ≡ false) }
        ensures rest { result.rest.now ≡ bytes.entry.now }
    {
        FakeReader {
            rest: bytes,
            at_most,
            calls: 0,
            failing_call,
            failed: false,
            ended: false,
        }
    }
}

impl Input for FakeReader<'_> {
    ghost left = { λ r. Some r.rest.now };

    ghost read_failed = { λ r. r.failed };

    ghost has_ended = { λ r. r.ended };

    fn read(&mut self, buffer: &mut [u8]) -> Result<usize, DeviceFault> {
        let call = self.calls;
        self.calls = call.saturating_add(1);
        if self.failing_call == Some(call) {
            self.failed = true;
            return Err(DeviceFault);
        }
        let count = self.at_most.min(buffer.len()).min(self.rest.len());
        let (given, rest) = self.rest.split_at(count);
        buffer[..count].copy_from_slice(given);
        self.rest = rest;
        self.ended |= count == 0 && !buffer.is_empty();
        Ok(count)
    }

    fn failed(&self) -> bool {
        self.failed
    }

    fn ended(&self) -> bool {
        self.ended
    }
}

/// What goes wrong at a writer. Its calls of `write` are numbered from 0.
#[derive(Clone, Copy)]
pub enum Mishap {
    Nothing,
    WriteFails(usize),
    WriteTakesNothing(usize),
    FlushFails,
}

/// Takes bytes into memory, at most some of them a call.
#[derive(Drop)]
pub struct FakeWriter {
    written: Vec<u8>,
    at_most: usize,
    writes: usize,
    mishap: Mishap,
    failed: bool,
    flushed: bool,
}

impl FakeWriter {
    /// A writer without bytes, which takes at most `at_most` a call.
    pub fn new(alloc: Global, at_most: usize, mishap: Mishap) -> FakeWriter
        ensures sound { result.failed ≡ false }
        ensures empty { result.written.items ≡ [] }
    {
        FakeWriter {
            written: Vec::new(alloc),
            at_most,
            writes: 0,
            mishap,
            failed: false,
            flushed: false,
        }
    }

    pub fn written(&self) -> &[u8]
        ensures { result.now ≡ self.now.written.items }
    {
        &self.written
    }

    pub fn is_flushed(&self) -> bool
        ensures { result ≡ self.now.flushed }
    {
        self.flushed
    }

    fn fail(&mut self) -> DeviceFault
        ensures { self.new ≡ record self.old { failed = true } }
    {
        self.failed = true;
        DeviceFault
    }
}

impl Output for FakeWriter {
    ghost held = { λ w. Some w.written.items };

    ghost write_failed = { λ w. w.failed };

    ghost is_flushed = { λ w. w.flushed };

    fn write(&mut self, buffer: &[u8]) -> Result<usize, DeviceFault> {
        let write = self.writes;
        self.writes = write.saturating_add(1);
        self.flushed = false;
        let count = match self.mishap {
            Mishap::WriteFails(at) if at == write => return Err(self.fail()),
            Mishap::WriteTakesNothing(at) if at == write => 0,
            _ => self.at_most.min(buffer.len()),
        };
        if self.written.extend_from_slice(&buffer[..count]).is_err() {
            return Err(self.fail());
        }
        self.failed |= count == 0 && !buffer.is_empty();
        Ok(count)
    }

    fn flush(&mut self) -> Result<(), DeviceFault> {
        self.flushed = !matches!(self.mishap, Mishap::FlushFails);
        if self.flushed {
            Ok(())
        } else {
            Err(self.fail())
        }
    }

    fn failed(&self) -> bool {
        self.failed
    }
}
