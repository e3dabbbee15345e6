//! Cuts the lines of a trace into pieces.
ghost use Rattle.std.specs.Prelude.{◌≡◌, ◌≤◌, ◌+◌, ◌<◌, ◌^◌, [], All, IfOk, length, map};
ghost use Rattle.ld_cut.specs.Pieces.{IsCutInto, behind_lines, first_lines};
ghost use Rattle.ld_cut.specs.Inner.Kept.{IsTold};
ghost use Rattle.ld_cut.specs.Inner.Carried.{IsCarried};

use crate::tasks::Tasks;
use ld_trace::{LONGEST_WORD, Source, next_line};
use std::alloc::{AllocError, Global};
use std::io::Write;

/// A piece of a trace.
#[derive(Drop)]
pub(crate) struct Piece {
    /// The label of the trace, and which piece it is.
    pub label: Vec<u8>,
    /// The lines that carry over what the tasks are in and hold, and behind them those of the trace.
    pub bytes: Vec<u8>,
}

/// Cuts a trace into pieces, each but the last one with so many of its lines, and at most so many pieces.
///
/// # Errors
///
/// `AllocError` where a growth of memory was refused.
pub(crate) fn pieces_of(
    alloc: Global,
    source: &Source<'_>,
    lines: usize,
    most: usize,
) -> Result<Vec<Piece>, AllocError>
    requires { 1 ≤ most }
    ensures few { IfOk result (λ pieces. length pieces.items ≤ most) }
    ensures cut { IfOk result (λ pieces. IsCutInto lines [] source.now.bytes.now
        (map (λ piece. piece.bytes.items) pieces.items)) }
{
    let mut pieces = Vec::new(alloc);
    let mut tasks = Tasks::new(alloc);
    let mut rest = source.bytes;
    while pieces.len() + 1 < most {
        let (own, others) = split_behind(rest, lines);
        if others.is_empty() {
            break;
        }
        let piece = piece_of(alloc, source.name, pieces.len(), &tasks, own)?;
        pieces.push(piece)?;
        tasks.pass(alloc, own)?;
        rest = others;
    }
    let piece = piece_of(alloc, source.name, pieces.len(), &tasks, rest)?;
    pieces.push(piece)?;
    Ok(pieces)
}

/// The first lines of some bytes, so many, and what stands behind them.
fn split_behind(bytes: &[u8], lines: usize) -> (&[u8], &[u8])
    ensures first { result.0.now ≡ first_lines lines bytes.now }
    ensures behind { result.1.now ≡ behind_lines lines bytes.now }
{
    let mut rest = bytes;
    for _ in 0..lines {
        let Some((_line, others)) = next_line(rest) else {
            return (bytes, &[]);
        };
        rest = others;
    }
    bytes.split_at(bytes.len() - rest.len())
}

/// The piece of this place with these lines of the trace, before which the tasks are in and hold this.
fn piece_of(
    alloc: Global,
    name: &[u8],
    place: usize,
    tasks: &Tasks<'_>,
    own: &[u8],
) -> Result<Piece, AllocError>
    requires { All IsTold tasks.now }
    ensures { IfOk result (λ piece. IsCarried tasks.now own.now piece.bytes.items) }
{
    let label = label_of(alloc, name, place as u64)?;
    let mut bytes = Vec::new(alloc);
    tasks.write(&mut bytes)?;
    bytes.extend_from_slice(own)?;
    Ok(Piece { label, bytes })
}

/// The label of the piece of this place: LABEL of the first one, LABEL.2 of the second one, and so on. What would be too
/// long is LABEL.
fn label_of(alloc: Global, name: &[u8], place: u64) -> Result<Vec<u8>, AllocError> {
    let mut label = name.to_vec(alloc)?;
    if place > 0 {
        let number = place.saturating_add(1);
        write!(label, ".{number}").map_err(|_| AllocError)?;
        if label.len() > LONGEST_WORD {
            label.truncate(name.len());
        }
    }
    Ok(label)
}
