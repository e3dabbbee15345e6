//! Reads a stream while workers read the traces of what has come.
ghost use Rattle.std.specs.Prelude.{◌≡◌, ◌≤◌, ◌+◌, ◌++◌, ◌↔◌, Err, IfOk, OnOk, false, length, true, vec_len};
ghost use Rattle.ld_io.specs.Transfer.{ConsumesAtMost, ReadsWhole};

use ld_io::{Input, MOST_READ, ReadFault, chunk};
use ld_pieces::{Pieces, read_piece};
use ld_work::Cuts;
use std::alloc::{AllocError, Global};
use std::sync::{OnceLock, Wait};

/// Reads the input to its end, piece by piece, and lets workers have the traces of each piece. Each piece stays in a
/// cell of its own. Then no more traces come, whatever happened. May wait.
///
/// # Errors
///
/// `Read` exactly if a read failed, and `Memory` if a growth of memory was refused, or the cells are too few.
pub(crate) fn read_stream<'a, I: Input, R: Wait>(
    rt: &R,
    alloc: Global,
    input: &mut I,
    texts: &'a [OnceLock<Vec<u8>>],
    cuts: &Cuts<'a>,
) -> Result<Pieces<'a>, ReadFault>
    requires sound { I.read_failed input.old ≡ false }
    requires open { I.has_ended input.old ≡ false }

    ensures ok { IfOk result (λ pieces.
        ReadsWhole (I.left input.old) (I.left input.new) (I.has_ended input.new) pieces) }
    ensures failed { (result ≡ Err ReadFault.Read) ↔ (I.read_failed input.new ≡ true) }
    ensures most { ConsumesAtMost (I.left input.old) (I.left input.new) MOST_READ }
{
    let read = read_pieces(rt, alloc, input, texts, cuts);
    // No worker waits for ever.
    cuts.end(rt);
    read
}

fn read_pieces<'a, I: Input, R: Wait>(
    rt: &R,
    alloc: Global,
    input: &mut I,
    texts: &'a [OnceLock<Vec<u8>>],
    cuts: &Cuts<'a>,
) -> Result<Pieces<'a>, ReadFault>
    requires sound { I.read_failed input.old ≡ false }
    requires open { I.has_ended input.old ≡ false }

    ensures ok { IfOk result (λ pieces.
        ReadsWhole (I.left input.old) (I.left input.new) (I.has_ended input.new) pieces) }
    ensures failed { (result ≡ Err ReadFault.Read) ↔ (I.read_failed input.new ≡ true) }
    ensures most { ConsumesAtMost (I.left input.old) (I.left input.new) MOST_READ }
{
    let mut chunk = chunk(alloc)?;
    let mut pieces = Pieces::new(alloc);
    let mut ahead = Vec::new(alloc);
    for cell in texts {
        let total = pieces.len() + ahead.len();
        let read = read_piece(alloc, input, &mut chunk, ahead, total)?;
        let text = kept(cell, read.piece)?;
        add(rt, alloc, &mut pieces, text, cuts)?;
        ahead = read.ahead;
        if read.is_last {
            return Ok(pieces);
        }
    }
    Err(ReadFault::Memory)
}

/// A piece in its cell, which no other thread sets.
fn kept(cell: &OnceLock<Vec<u8>>, piece: Vec<u8>) -> Result<&[u8], AllocError>
    ensures { IfOk result (λ text. text.now ≡ piece.items) }
{
    match cell.try_set(piece) {
        Ok(token) => Ok(cell.value(&token).as_slice()),
        Err(_) => Err(AllocError),
    }
}

/// Adds a piece, and lets workers have its traces.
fn add<'a, R: Wait>(
    rt: &R,
    alloc: Global,
    pieces: &mut Pieces<'a>,
    text: &'a [u8],
    cuts: &Cuts<'a>,
) -> Result<(), AllocError>
    requires { length pieces.old + length text.now ≤ MOST_READ }
    ensures { OnOk result (pieces.new ≡ pieces.old ++ text.entry.now) }
{
    let before = count(pieces);
    pieces.add(alloc, text)?;
    match pieces.traces() {
        Some(traces) if before <= traces.len() => cuts.put(rt, alloc, &traces[before..]),
        _ => Ok(()),
    }
}

/// How many traces have come.
fn count(pieces: &Pieces<'_>) -> usize {
    match pieces.traces() {
        Some(traces) => traces.len(),
        None => 0,
    }
}
