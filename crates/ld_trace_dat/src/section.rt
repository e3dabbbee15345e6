//! Sections of a file of version 7.
ghost use Rattle.std.specs.Prelude.{◌≡◌};
ghost use Rattle.ld_trace_dat.specs.Options.{section};

use crate::fault::{DatFault, Wrong};
use crate::part::{half, long, part, word};

/// A part of a file.
#[derive(Clone, Copy, Debug, PartialEq, Eq)]
pub(crate) struct Span {
    /// Offset of its first byte.
    pub at: usize,
    /// Behind its last byte.
    pub end: usize,
}

/// Where the contents of the section at an offset stand, which has to be of this kind.
#[tactic(auto, unfolding(crate::specs::Options::section))]
pub(crate) fn section(bytes: &[u8], at: usize, wanted: usize) -> Result<Span, DatFault>
    ensures { result ≡ section bytes.now at wanted }
{
    let (kind, start) = half(bytes, at)?;
    if kind != wanted {
        return Err(DatFault {
            offset: at,
            wrong: Wrong::Section,
        });
    }
    let (flags, start) = half(bytes, start)?;
    if flags % 2 == 1 {
        return Err(DatFault {
            offset: at,
            wrong: Wrong::Compressed,
        });
    }
    let (_, start) = word(bytes, start)?;
    let (size, start) = long(bytes, start)?;
    let (_, end) = part(bytes, start, size)?;
    Ok(Span { at: start, end })
}
