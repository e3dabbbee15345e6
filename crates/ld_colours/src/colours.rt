//! Lines behind the mark by which a terminal shows them.
ghost use Rattle.std.specs.Prelude.{◌≡◌, ◌++◌, flat_map, IfOk, OnOk};
ghost use Rattle.std.specs.List.{prefix_len};
ghost use Rattle.ld_trace.specs.Lines.{lines};
ghost use Rattle.ld_colours.specs.Colours.{is_space, mark_of, styled};

use ld_trace::{next_line, text};
use std::alloc::{AllocError, Global};

/// Bold, for a heading.
const HEADING: &[u8] = b"\x1b[1m";
/// Cyan, for a part of what stands below a heading.
const PART: &[u8] = b"\x1b[36m";
/// As all other text.
const PLAIN: &[u8] = b"\x1b[0m";

/// A text with the colours of each of its lines. No byte of the text is changed or left out.
///
/// # Errors
///
/// `AllocError` if a growth of memory was refused.
pub fn coloured(alloc: Global, text: &[u8]) -> Result<Vec<u8>, AllocError>
    ensures { IfOk result (λ shown. shown.items ≡ flat_map styled (lines text.now)) }
{
    let mut shown = Vec::new(alloc);
    let mut rest = text;
    while let Some((line, after)) = next_line(rest) {
        write_styled(&mut shown, line)?;
        rest = after;
    }
    Ok(shown)
}

/// Writes a line in its colour.
fn write_styled(shown: &mut Vec<u8>, line: &[u8]) -> Result<(), AllocError>
    ensures { OnOk result (shown.new.items ≡ shown.old.items ++ styled line.now) }
{
    let mark = mark_of(text(line));
    shown.extend_from_slice(mark)?;
    shown.extend_from_slice(line)?;
    if !mark.is_empty() {
        shown.extend_from_slice(PLAIN)?;
    }
    Ok(())
}

/// What begins the colour of a line with this text; nothing if it has none.
fn mark_of(text: &[u8]) -> &'static [u8]
    ensures { result.now ≡ mark_of text.now }
{
    if text.is_empty() {
        return &[];
    }
    match space_count(text) {
        0 => HEADING,
        2 => PART,
        _ => &[],
    }
}

/// How many spaces a text begins with.
fn space_count(text: &[u8]) -> usize
    ensures { result ≡ prefix_len is_space text.now }
{
    text.iter().take_while(|byte| **byte == b' ').count()
}
