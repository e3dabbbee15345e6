//! The devices that a run reads from and writes to, and their form over std's readers and writers.
ghost use Rattle.std.specs.Prelude.{◌≡◌, ◌≤◌, ◌||◌, ℕ, Bool, List, length, is_err, is_ok, false, IfOk, Option};
ghost use Rattle.std.specs.Io.KnownBytes.{Keeps, ReadConsumes, WriteAppends};
ghost use Rattle.ld_io.specs.Devices.{finds_end, fails_to_write};

use std::io;
use std::marker::Model;
use thiserror::Error;

/// A read, a write or a flush failed. The device says no more.
#[derive(Clone, Copy, Debug, PartialEq, Eq, Error)]
#[error("the device failed")]
pub struct DeviceFault;

/// What gives bytes, until its end.
pub trait Input {
    // The bytes that reads will give from here on, where they are known.
    ghost left: { Self → Option (List ℕ) };

    // Some read failed.
    ghost read_failed: { Self → Bool };

    // Some read into room answered 0.
    ghost has_ended: { Self → Bool };

    /// Reads into the front of the buffer, and answers how many bytes it gave. It gives 0 bytes
    /// into a buffer with room only at the end of the input. May wait.
    ///
    /// # Errors
    ///
    /// Where the device failed, or was interrupted.
    fn read(&mut self, buffer: &mut [u8]) -> Result<usize, DeviceFault>
        ensures within { IfOk result (λ n. n ≤ length buffer.new) }
        ensures bytes { ReadConsumes (left self.old) (left self.new) result buffer.new }
        ensures failed { read_failed self.new ≡ (read_failed self.old || is_err result) }
        ensures ended { has_ended self.new ≡ (has_ended self.old || finds_end result buffer.new) };

    /// Whether some read failed. Takes no memory.
    fn failed(&self) -> bool
        ensures { result ≡ read_failed self.now };

    /// Whether some read into a buffer with room answered 0. Takes no memory.
    fn ended(&self) -> bool
        ensures { result ≡ has_ended self.now };
}

/// What takes bytes.
pub trait Output {
    // The bytes that were written so far, where they are known.
    ghost held: { Self → Option (List ℕ) };

    // Some write or flush failed.
    ghost write_failed: { Self → Bool };

    // The last call of `write` or `flush` was a flush that answered Ok.
    ghost is_flushed: { Self → Bool };

    /// Takes bytes from the front of the buffer, and answers how many. To take none of a buffer
    /// that has some counts as a failure. May wait.
    ///
    /// # Errors
    ///
    /// Where the device failed, or was interrupted.
    fn write(&mut self, buffer: &[u8]) -> Result<usize, DeviceFault>
        ensures within { IfOk result (λ n. n ≤ length buffer.now) }
        ensures bytes { WriteAppends (held self.old) (held self.new) result buffer.now }
        ensures failed { write_failed self.new ≡
            (write_failed self.old || fails_to_write result buffer.now) }
        ensures flushed { is_flushed self.new ≡ false };

    /// Passes on what was written so far. May wait.
    ///
    /// # Errors
    ///
    /// Where the device failed, or was interrupted.
    fn flush(&mut self) -> Result<(), DeviceFault>
        ensures bytes { Keeps (held self.old) (held self.new) }
        ensures failed { write_failed self.new ≡ (write_failed self.old || is_err result) }
        ensures flushed { is_flushed self.new ≡ is_ok result };

    /// Whether some write or flush failed. Takes no memory.
    fn failed(&self) -> bool
        ensures { result ≡ write_failed self.now };
}

/// A std reader or writer as a device, which tells the bytes that the reader or writer tells.
#[derive(Drop)]
pub struct Std<T> {
    inner: T,
    read_failed: bool,
    ended: bool,
    write_failed: bool,
    // Contracts alone read it.
    flushed: bool,
}

impl<T> Model for Std<T> {
    ghost use Rattle.ld_io.specs.Devices.{Device};

    ghost Value = { Device T };

    ghost view = { λ s. record {
      inner = s.inner;
      read_failed = s.read_failed;
      ended = s.ended;
      write_failed = s.write_failed;
      flushed = s.flushed;
    } };
}

impl<T> Std<T> {
    ghost use Rattle.ld_io.specs.Devices.{IsFresh};

    /// The device over this reader or writer. It has not failed and has not ended. Takes no memory.
    pub fn new(inner: T) -> Std<T>
        ensures inner { result.inner ≡ inner }
        ensures fresh { IsFresh result }
    {
        Std {
            inner,
            read_failed: false,
            ended: false,
            write_failed: false,
            flushed: false,
        }
    }
}

impl<T: io::Read> Input for Std<T> {
    ghost left = { λ s. T.remaining s.inner };

    ghost read_failed = { λ s. s.read_failed };

    ghost has_ended = { λ s. s.ended };

    fn read(&mut self, buffer: &mut [u8]) -> Result<usize, DeviceFault> {
        match self.inner.read(buffer) {
            Ok(count) => {
                self.ended |= count == 0 && !buffer.is_empty();
                Ok(count)
            }
            Err(_) => {
                self.read_failed = true;
                Err(DeviceFault)
            }
        }
    }

    fn failed(&self) -> bool {
        self.read_failed
    }

    fn ended(&self) -> bool {
        self.ended
    }
}

impl<T: io::Write> Output for Std<T> {
    ghost held = { λ s. T.contents s.inner };

    ghost write_failed = { λ s. s.write_failed };

    ghost is_flushed = { λ s. s.flushed };

    fn write(&mut self, buffer: &[u8]) -> Result<usize, DeviceFault> {
        self.flushed = false;
        match self.inner.write(buffer) {
            Ok(count) => {
                self.write_failed |= count == 0 && !buffer.is_empty();
                Ok(count)
            }
            Err(_) => {
                self.write_failed = true;
                Err(DeviceFault)
            }
        }
    }

    fn flush(&mut self) -> Result<(), DeviceFault> {
        let outcome = self.inner.flush();
        self.flushed = outcome.is_ok();
        self.write_failed |= outcome.is_err();
        outcome.map_err(|_| DeviceFault)
    }

    fn failed(&self) -> bool {
        self.write_failed
    }
}
