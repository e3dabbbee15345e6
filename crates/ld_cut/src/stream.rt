//! Cuts the traces of a stream into pieces.
ghost use Rattle.std.specs.Prelude.{◌≡◌, ◌≤◌, ◌+◌, ◌++◌, All, IfOk, OnOk, List, length, map};
ghost use Rattle.ld_trace.specs.Sources.{PlainSource, plain};
ghost use Rattle.ld_reduce.specs.Written.{IsTrace, trace_text, written};
ghost use Rattle.ld_cut.specs.Cut.{IsCut, IsCutOf};

use crate::alike::are_alike;
use crate::pieces::{Piece, pieces_of};
use ld_reduce::append_ended;
use ld_trace::{MOST_TRACES, Source};
use std::alloc::{AllocError, Global};

/// The stream of the pieces of some traces, each but the last piece of a trace with so many of its lines. A trace that is
/// rejected is written whole, and so is one for whose pieces a stream has no room left.
///
/// # Errors
///
/// `AllocError` where a growth of memory was refused.
pub fn cut(alloc: Global, sources: &[Source<'_>], lines: usize) -> Result<Vec<u8>, AllocError>
    requires { All IsTrace (map plain sources.now) }
    ensures { IfOk result (λ text. IsCutOf lines (map plain sources.now) text.items) }
{
    let mut text = Vec::new(alloc);
    let mut room = (MOST_TRACES as usize).saturating_sub(sources.len());
    for source in sources {
        room = write_cut(alloc, &mut text, source, lines, room)?;
    }
    Ok(text)
}

/// Writes the pieces of a trace, where the stream has room for so many traces more, and answers how much is left of that.
fn write_cut(
    alloc: Global,
    text: &mut Vec<u8>,
    source: &Source<'_>,
    lines: usize,
    room: usize,
) -> Result<usize, AllocError>
    requires trace { IsTrace (plain source.now) }
    requires room { room ≤ MOST_TRACES }
    ensures { IfOk result (λ left. (pieces : List PlainSource) × IsCut lines (plain source.now) pieces
        × (text.new.items ≡ text.old.items ++ written pieces)
        × (length pieces + left ≤ room + 1)) }
{
    let pieces = pieces_of(alloc, source, lines, room + 1)?;
    let sources = sources_of(alloc, &pieces)?;
    if sources.len() < 2 {
        write_trace(text, source)?;
        return Ok(room);
    }
    let alike = are_alike(alloc, &[*source], &sources)?;
    if !alike {
        write_trace(text, source)?;
        return Ok(room);
    }
    let more = sources.len() - 1;
    write_traces(text, &sources)?;
    Ok(room - more)
}

/// The pieces as traces of a stream of their own.
fn sources_of<'a>(alloc: Global, pieces: &'a [Piece]) -> Result<Vec<Source<'a>>, AllocError>
    ensures bytes { IfOk result (λ sources. map (λ source. source.bytes.now) sources.items
        ≡ map (λ piece. piece.bytes.items) pieces.now) }
    ensures count { IfOk result (λ sources. length sources.items ≡ length pieces.now) }
{
    let mut sources = Vec::new(alloc);
    for piece in pieces {
        let number = sources.len() as u64;
        sources.push(Source {
            number,
            name: &piece.label,
            first_line: 2,
            bytes: &piece.bytes,
        })?;
    }
    Ok(sources)
}

/// Writes some traces.
fn write_traces(text: &mut Vec<u8>, sources: &[Source<'_>]) -> Result<(), AllocError>
    ensures { OnOk result (text.new.items ≡ text.old.items ++ written (map plain sources.now)) }
{
    for source in sources {
        write_trace(text, source)?;
    }
    Ok(())
}

/// Writes a trace: its header and its lines.
fn write_trace(text: &mut Vec<u8>, source: &Source<'_>) -> Result<(), AllocError>
    ensures { OnOk result (text.new.items ≡ text.old.items ++ trace_text (plain source.now)) }
{
    text.extend_from_slice(b"trace ")?;
    text.extend_from_slice(source.name)?;
    text.push(b'\n')?;
    append_ended(text, source.bytes)
}
