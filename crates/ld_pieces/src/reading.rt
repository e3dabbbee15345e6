//! Reads an input piece by piece.
ghost use Rattle.std.specs.Prelude.{◌≡◌, ◌<◌, ◌≤◌, ◌-◌, ◌+◌, ◌++◌, ◌↔◌, ◌||◌, ◌⊎◌, [], Err, IfErr, IfOk, IfSome, OnOk, false, length, true, vec_len};
ghost use Rattle.std.specs.Io.KnownBytes.{Consumes, IsAtEnd};
ghost use Rattle.ld_io.specs.Devices.{finds_end};
ghost use Rattle.ld_io.specs.Inner.Reading.{Gains};
ghost use Rattle.ld_io.specs.Transfer.{ConsumesAtMost};

use ld_io::{CHUNK, Input, MOST_READ, ReadFault, read_up_to};
use memchr::{memmem, memrchr};
use std::alloc::{AllocError, Global};

/// How many bytes a piece has at least, as far as whole traces are as many.
const PIECE: usize = 262_144;

/// A piece has at least this part of all that was read before, so that there are few of them.
const PART: usize = 32;

/// Some bytes of an input.
#[derive(Drop)]
pub struct Read {
    /// The next piece: whole traces, if its end isn't that of the input.
    pub piece: Vec<u8>,
    /// What was read behind it.
    pub ahead: Vec<u8>,
    /// Nothing more is to be read.
    pub is_last: bool,
}

/// Where the last line that begins with `trace ` begins, among those behind an LF from this place on.
fn last_header(bytes: &[u8], from: usize) -> Option<usize>
    ensures { IfSome result (λ at. at ≤ length bytes.now) }
{
    // A long trace is searched as a whole, since most of its reads have no header.
    memmem::find(bytes.get(from..)?, b"\ntrace ")?;
    let mut end = bytes.len();
    'lines: while from < end {
        let line = from + memrchr(b'\n', &bytes[from..end])?;
        if bytes[line + 1..].starts_with(b"trace ") {
            return Some(line + 1);
        }
        end = line;
    }
    None
}

/// All bytes as the last piece.
fn whole(alloc: Global, all: Vec<u8>) -> Read
    ensures piece { result.piece ≡ all }
    ensures ahead { result.ahead.items ≡ [] }
    ensures last { result.is_last ≡ true }
{
    Read {
        piece: all,
        ahead: Vec::new(alloc),
        is_last: true,
    }
}

/// The bytes before this place as a piece.
fn parted(alloc: Global, mut all: Vec<u8>, end: usize) -> Result<Read, AllocError>
    requires { end ≤ vec_len all }
    ensures all { IfOk result (λ read. read.piece.items ++ read.ahead.items ≡ all.items) }
    ensures last { IfOk result (λ read. read.is_last ≡ false) }
{
    let mut ahead = Vec::with_capacity(alloc, all.len() - end)?;
    ahead.extend_from_slice(&all[end..])?;
    all.truncate(end);
    Ok(Read {
        piece: all,
        ahead,
        is_last: false,
    })
}

/// Reads the next piece of an input, of which `total` bytes were read: those ahead among them, which no piece has yet.
/// It ends before a header, or where nothing more is to be read: at the end, or behind `MOST_READ` bytes. A read that
/// fails is not tried again. May wait.
///
/// # Errors
///
/// `Read` exactly if a read failed, and `Memory` if a growth of memory was refused. What was read until then is lost.
pub fn read_piece<I: Input>(
    alloc: Global,
    input: &mut I,
    chunk: &mut [u8],
    ahead: Vec<u8>,
    total: usize,
) -> Result<Read, ReadFault>
    requires sound { I.read_failed input.old ≡ false }
    requires open { I.has_ended input.old ≡ false }
    requires chunk { length chunk.old ≡ CHUNK }
    requires ahead { vec_len ahead ≤ total }
    requires total { total ≤ MOST_READ }

    ensures bytes { IfOk result (λ read. Gains ahead.items (read.piece.items ++ read.ahead.items)
        (Consumes (I.left input.old) (I.left input.new))) }
    ensures len { IfOk result (λ read.
        total + vec_len read.piece + vec_len read.ahead ≤ MOST_READ + vec_len ahead) }
    ensures open { IfOk result (λ read. read.is_last ≡ false → I.has_ended input.new ≡ false) }
    ensures last { IfOk result (λ read. read.is_last ≡ true → (read.ahead.items ≡ [])
        × ((total + vec_len read.piece ≡ MOST_READ + vec_len ahead)
        ⊎ ((I.has_ended input.new ≡ true) × IsAtEnd (I.left input.new)))) }
    ensures most { ConsumesAtMost (I.left input.old) (I.left input.new) (MOST_READ - total) }
    ensures failed { (result ≡ Err ReadFault.Read) ↔ (I.read_failed input.new ≡ true) }
{
    let most = MOST_READ - (total - ahead.len());
    let least = PIECE.max(total / PART);
    let mut all = ahead;
    'reads: while all.len() < most {
        let from = all.len();
        if read_up_to(input, chunk, &mut all, most.min(from + least))? {
            return Ok(whole(alloc, all));
        }
        if let Some(end) = last_header(&all, from) {
            let read = parted(alloc, all, end)?;
            return Ok(read);
        }
    }
    Ok(whole(alloc, all))
}
