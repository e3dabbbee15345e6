//! The options of a file: where its other parts stand, and what can't be read.
ghost use Rattle.std.specs.Prelude.{◌≡◌, length};
ghost use Rattle.ld_trace_dat.specs.Options.{last, noted, once, option, option_of, options, others_at, start_at};

use crate::fault::{DatFault, Wrong};
use crate::part::{half, long, part, word};
use crate::section::{Span, section};
use crate::start::Version;

/// The pages of a buffer.
const BUFFER: usize = 3;

/// The trace clock.
const CLOCK: usize = 4;

/// How to shift the times of a guest.
const TIME_SHIFT: usize = 12;

/// A guest that was recorded with its host.
const GUEST: usize = 13;

/// The layout of pages.
const HEADERS: usize = 16;

/// The formats of events.
const FORMATS: usize = 18;

/// The kernel's symbols.
const SYMBOLS: usize = 19;

/// The names of tasks.
const NAMES: usize = 21;

/// A text in the place of pages.
const LATENCY: usize = 22;

/// The section of options.
const OPTIONS: usize = 0;

/// What the options say: where the contents of each stand.
#[derive(Clone, Copy, Debug, PartialEq, Eq)]
pub(crate) struct Found {
    pub buffer: Option<Span>,
    pub clock: Option<Span>,
    pub headers: Option<Span>,
    pub formats: Option<Span>,
    pub symbols: Option<Span>,
    pub names: Option<Span>,
}

/// How far the options were read.
#[derive(Clone, Copy, Debug, PartialEq, Eq)]
pub(crate) struct Progress {
    /// Offset of the next option, or where the options end.
    pub at: usize,
    /// Whether there is no further option.
    pub is_done: bool,
    pub found: Found,
}

/// Before the first option, at an offset.
pub(crate) fn start_at(at: usize) -> Progress
    ensures { result ≡ start_at at }
{
    let found = Found {
        buffer: None,
        clock: None,
        headers: None,
        formats: None,
        symbols: None,
        names: None,
    };
    Progress {
        at,
        is_done: false,
        found,
    }
}

/// The contents of an option, which is the first of its kind.
fn once(before: Option<Span>, span: Span, at: usize, wrong: Wrong) -> Result<Option<Span>, DatFault>
    ensures { result ≡ once before span at wrong }
{
    match before {
        None => Ok(Some(span)),
        Some(_) => Err(DatFault { offset: at, wrong }),
    }
}

/// What the options say with the one at an offset, of this number and with these contents.
fn noted(found: Found, id: usize, span: Span, at: usize) -> Result<Found, DatFault>
    ensures { result ≡ noted found id span at }
{
    match id {
        BUFFER => {
            let buffer = once(found.buffer, span, at, Wrong::Buffers)?;
            Ok(Found { buffer, ..found })
        }
        CLOCK => {
            let clock = once(found.clock, span, at, Wrong::Twice)?;
            Ok(Found { clock, ..found })
        }
        HEADERS => {
            let headers = once(found.headers, span, at, Wrong::Twice)?;
            Ok(Found { headers, ..found })
        }
        FORMATS => {
            let formats = once(found.formats, span, at, Wrong::Twice)?;
            Ok(Found { formats, ..found })
        }
        SYMBOLS => {
            let symbols = once(found.symbols, span, at, Wrong::Twice)?;
            Ok(Found { symbols, ..found })
        }
        NAMES => {
            let names = once(found.names, span, at, Wrong::Twice)?;
            Ok(Found { names, ..found })
        }
        TIME_SHIFT | GUEST => Err(DatFault {
            offset: at,
            wrong: Wrong::Guest,
        }),
        LATENCY => Err(DatFault {
            offset: at,
            wrong: Wrong::Latency,
        }),
        _ => Ok(found),
    }
}

/// Where the options go on behind the last one of a section, whose contents stand from an offset on.
#[tactic(auto, unfolding(crate::specs::Options::others_at))]
fn others_at(bytes: &[u8], at: usize) -> Result<(usize, bool), DatFault>
    ensures { result ≡ others_at bytes.now at }
{
    let (_, start) = word(bytes, at)?;
    let (next, end) = long(bytes, start)?;
    if next == 0 {
        return Ok((end, true));
    }
    if next < end {
        return Err(DatFault {
            offset: start,
            wrong: Wrong::Order,
        });
    }
    let inside = section(bytes, next, OPTIONS)?;
    Ok((inside.at, false))
}

/// Behind the option with number 0.
fn last(bytes: &[u8], version: Version, at: usize) -> Result<(usize, bool), DatFault>
    ensures { result ≡ last bytes.now version at }
{
    match version {
        Version::Six => Ok((at, true)),
        Version::Seven => others_at(bytes, at),
    }
}

/// How far the options were read behind one of this number, the rest of which stands at an offset.
#[tactic(auto, unfolding(crate::specs::Options::option_of))]
fn option_of(bytes: &[u8], from: Progress, id: usize, at: usize) -> Result<Progress, DatFault>
    ensures { result ≡ option_of bytes.now from id at }
{
    let (size, at) = word(bytes, at)?;
    let (_, end) = part(bytes, at, size)?;
    let found = noted(from.found, id, Span { at, end }, from.at)?;
    Ok(Progress {
        at: end,
        is_done: false,
        found,
    })
}

/// How far the options were read behind the next one.
#[tactic(auto, unfolding(crate::specs::Options::option))]
fn option(bytes: &[u8], version: Version, from: Progress) -> Result<Progress, DatFault>
    ensures { result ≡ option bytes.now version from }
{
    let (id, start) = half(bytes, from.at)?;
    if id == 0 {
        let (at, is_done) = last(bytes, version, start)?;
        return Ok(Progress {
            at,
            is_done,
            found: from.found,
        });
    }
    option_of(bytes, from, id, start)
}

/// What the options say that begin at an offset, and where they end.
pub(crate) fn options(bytes: &[u8], version: Version, at: usize) -> Result<Progress, DatFault>
    ensures { result ≡ options bytes.now version (length bytes.now) (start_at at) }
{
    let mut progress = start_at(at);
    // Each option has bytes of its own, so there are no more of them than bytes.
    for _ in 0..bytes.len() {
        progress = option(bytes, version, progress)?;
        if progress.is_done {
            return Ok(progress);
        }
    }
    Err(DatFault {
        offset: progress.at,
        wrong: Wrong::Ends,
    })
}
