//! The traces of a piece, as traces of the stream that it is a piece of.
ghost use Rattle.std.specs.Prelude.{◌≡◌, ◌<◌, ◌≤◌, ◌+◌, ◌^◌, All, IfOk, IfSome, IsTrue, count_by, false, length, map};
ghost use Rattle.ld_trace.specs.Inner.Splitting.{is_lf};
ghost use Rattle.ld_trace.specs.Sources.{Fits, plain, sources};
ghost use Rattle.ld_pieces.specs.Pieces.{BeginsWithHeader, EndsLine, IsCutBehind, moved};

use ld_trace::{LONGEST_STREAM, MOST_TRACES, Source, StreamFault, split};
use memchr::memchr;
use std::alloc::{AllocError, Global};

/// The traces of a piece that so many traces and lines come before. `None` if the piece has a fault or too many traces,
/// or if it isn't the first and doesn't begin with a header.
///
/// # Errors
///
/// `AllocError` if memory was refused.
pub(crate) fn cut_behind<'a>(
    alloc: Global,
    piece: &'a [u8],
    traces: u64,
    lines: u64,
    is_first: bool,
) -> Result<Option<Vec<Source<'a>>>, AllocError>
    requires traces { traces ≤ MOST_TRACES }
    requires lines { lines ≤ LONGEST_STREAM + 1 }
    ensures cut { IfOk result (λ answer. IfSome answer (λ more.
        IsCutBehind piece.entry.now traces lines (map plain more.items))) }
    ensures header { is_first ≡ false → IfOk result (λ answer. IfSome answer (λ _.
        BeginsWithHeader piece.entry.now)) }
{
    let mut sources = match split(alloc, piece) {
        Ok(sources) => sources,
        Err(StreamFault::Memory) => return Err(AllocError),
        Err(_) => return Ok(None),
    };
    if !is_first && !begins_with_header(piece, &sources) {
        return Ok(None);
    }
    if sources.len() as u64 > MOST_TRACES - traces {
        return Ok(None);
    }
    move_on(&mut sources, traces, lines);
    Ok(Some(sources))
}

/// Whether the piece begins with a header, by its sources.
fn begins_with_header(_piece: &[u8], found: &[Source<'_>]) -> bool
    requires { map plain found.now ≡ sources _piece.now }
    ensures { IsTrue result → BeginsWithHeader _piece.now }
{
    match found.first() {
        Some(source) => source.first_line == 2,
        None => false,
    }
}

/// Moves sources to where so many traces and lines come before them.
fn move_on(sources: &mut [Source<'_>], traces: u64, lines: u64)
    requires traces { traces ≤ MOST_TRACES }
    requires lines { lines ≤ LONGEST_STREAM + 1 }
    requires fit { All (λ source. Fits (plain source)) sources.old }
    ensures { map plain sources.new ≡ map (moved traces lines) (map plain sources.old) }
{
    for source in sources.iter_mut() {
        source.number += traces;
        source.first_line += lines;
    }
}

/// How many LFs there are.
pub(crate) fn count_lines(bytes: &[u8]) -> u64
    ensures count { result ≡ count_by is_lf bytes.now }
    ensures few { result ≤ length bytes.now }
{
    let mut count = 0;
    let mut rest = bytes;
    while let Some(at) = memchr(b'\n', rest) {
        count += 1;
        let (_, behind) = rest.split_at(at + 1);
        rest = behind;
    }
    count
}

/// Whether the last byte is an LF.
pub(crate) fn ends_line(bytes: &[u8]) -> bool
    ensures { IsTrue result → EndsLine bytes.now }
{
    match bytes.last() {
        Some(last) => *last == b'\n',
        None => false,
    }
}
