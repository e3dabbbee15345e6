//! Whole transfers over the devices: the reading of an input to its end, and the writing of a text.
ghost use Rattle.std.specs.Prelude.{◌≡◌, ◌<◌, ◌≤◌, ◌-◌, ◌+◌, ◌↔◌, ◌||◌, false, true, length, vec_len, IfOk, IsErr, OnErr, OnOk};
ghost use Rattle.std.specs.Io.KnownBytes.{Appends, Consumes, IsAtEnd};
ghost use Rattle.ld_io.specs.declared.transfer.ReadFault.TheVariants.{Memory, Read};
ghost use Rattle.ld_io.specs.Devices.{finds_end};
ghost use Rattle.ld_io.specs.Inner.Reading.{Gains};
ghost use Rattle.ld_io.specs.Transfer.{AppendsPart, ConsumesAtMost, ReadsWhole};

use crate::devices::{DeviceFault, Input, Output};
use ld_trace::LONGEST_STREAM;
use std::alloc::{AllocError, Global};

/// The most bytes that are read of an input: one more than the longest stream has.
pub const MOST_READ: usize = LONGEST_STREAM + 1;

const _: () = prove!(MOST_READ == (1 << 31) + 1);

/// How many bytes one read asks for.
pub const CHUNK: usize = 65_536;

const _: () = prove!(CHUNK == 1 << 16);

/// Why an input could not be read whole.
#[derive(Clone, Copy, Debug, PartialEq, Eq)]
pub enum ReadFault {
    /// A read failed.
    Read,
    /// There was no memory for what was read.
    Memory,
}

impl From<AllocError> for ReadFault {
    ghost from_gives = { λ _ fault. fault ≡ Memory };

    fn from(_refusal: AllocError) -> ReadFault {
        ReadFault::Memory
    }
}

impl From<DeviceFault> for ReadFault {
    ghost from_gives = { λ _ fault. fault ≡ Read };

    fn from(_fault: DeviceFault) -> ReadFault {
        ReadFault::Read
    }
}

/// The bytes that reads go through, `CHUNK` of them.
///
/// # Errors
///
/// `AllocError` if there was no memory for them.
pub fn chunk(alloc: Global) -> Result<Vec<u8>, AllocError>
    ensures { IfOk result (λ bytes. vec_len bytes ≡ CHUNK) }
{
    vec![in alloc; 0; CHUNK]
}

/// Reads once into the chunk and appends what was read. Answers how many bytes these are.
fn read_more<I: Input>(
    input: &mut I,
    chunk: &mut [u8],
    all: &mut Vec<u8>,
) -> Result<usize, ReadFault>
    requires { I.read_failed input.old ≡ false }

    ensures grows { IfOk result (λ n. (n ≤ length chunk.old)
        × (vec_len all.new ≡ vec_len all.old + n)) }
    ensures ended { OnOk result (I.has_ended input.new ≡
        (I.has_ended input.old || finds_end result chunk.old)) }
    ensures at_end { IfOk result (λ n. n ≡ 0 → 0 < length chunk.old → IsAtEnd (I.left input.new)) }
    ensures bytes { OnOk result (Gains all.old.items all.new.items
        (Consumes (I.left input.old) (I.left input.new))) }
    ensures most { ConsumesAtMost (I.left input.old) (I.left input.new) (length chunk.old) }
    ensures failed { (result ≡ Err ReadFault.Read) ↔ (I.read_failed input.new ≡ true) }
{
    let count = input.read(chunk)?;
    all.extend_from_slice(&chunk[..count])?;
    Ok(count)
}

/// Reads until there are `len` bytes, behind those that are there. Answers whether the input ended before. A read that
/// fails is not tried again. May wait.
///
/// # Errors
///
/// `Read` exactly if a read failed, and `Memory` if a growth of memory was refused. What was read until then stays.
pub fn read_up_to<I: Input>(
    input: &mut I,
    chunk: &mut [u8],
    all: &mut Vec<u8>,
    len: usize,
) -> Result<bool, ReadFault>
    requires sound { I.read_failed input.old ≡ false }
    requires open { I.has_ended input.old ≡ false }
    requires chunk { length chunk.old ≡ CHUNK }
    requires room { vec_len all.old ≤ len }

    ensures bytes { OnOk result (Gains all.old.items all.new.items
        (Consumes (I.left input.old) (I.left input.new))) }
    ensures len { IfOk result (λ ended. (vec_len all.new ≤ len) × (ended ≡ false → vec_len all.new ≡ len)) }
    ensures ended { IfOk result (λ ended. (I.has_ended input.new ≡ ended)
        × (ended ≡ true → IsAtEnd (I.left input.new))) }
    ensures most { ConsumesAtMost (I.left input.old) (I.left input.new) (len - vec_len all.old) }
    ensures failed { (result ≡ Err ReadFault.Read) ↔ (I.read_failed input.new ≡ true) }
{
    'chunks: while all.len() < len {
        let room = CHUNK.min(len - all.len());
        if read_more(input, &mut chunk[..room], all)? == 0 {
            return Ok(true);
        }
    }
    Ok(false)
}

/// Reads the input to its end, or its first `MOST_READ` bytes where it has more than the longest
/// stream. A read that fails is not tried again. May wait.
///
/// # Errors
///
/// `Read` exactly where a read failed, and `Memory` where a growth of memory was refused. What was read
/// until then is lost.
pub fn read_all<I: Input>(alloc: Global, input: &mut I) -> Result<Vec<u8>, ReadFault>
    requires sound { I.read_failed input.old ≡ false }
    requires open { I.has_ended input.old ≡ false }

    ensures ok { IfOk result (λ all.
        ReadsWhole (I.left input.old) (I.left input.new) (I.has_ended input.new) all.items) }
    ensures failed { (result ≡ Err ReadFault.Read) ↔ (I.read_failed input.new ≡ true) }
    ensures most { ConsumesAtMost (I.left input.old) (I.left input.new) MOST_READ }
{
    let mut all = Vec::new(alloc);
    let mut chunk = chunk(alloc)?;
    read_up_to(input, &mut chunk, &mut all, MOST_READ)?;
    Ok(all)
}

/// Writes the whole text and flushes it. A write or flush that fails is not tried again. May wait.
/// Takes no memory.
///
/// # Errors
///
/// `DeviceFault` exactly where a write or the flush failed, a write that took nothing among them. A
/// first part of the text was written then, the whole text where the flush failed.
pub fn send<O: Output>(output: &mut O, text: &[u8]) -> Result<(), DeviceFault>
    requires { O.write_failed output.old ≡ false }

    ensures ok { OnOk result (Appends (O.held output.old) (O.held output.new) text.now) }
    ensures flushed { OnOk result (O.is_flushed output.new ≡ true) }
    ensures part { OnErr result (AppendsPart (O.held output.old) (O.held output.new) text.now) }
    ensures failed { IsErr result ↔ (O.write_failed output.new ≡ true) }
{
    let mut sent = 0;
    'writes: while sent < text.len() {
        let count = output.write(&text[sent..])?;
        if count == 0 {
            return Err(DeviceFault);
        }
        sent += count;
    }
    output.flush()
}
