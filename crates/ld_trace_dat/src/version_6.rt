//! A file of version 6: its parts stand one behind the other.
ghost use Rattle.std.specs.Prelude.{◌≡◌};
ghost use Rattle.ld_trace_dat.specs.Lists.{Gives};
ghost use Rattle.ld_trace_dat.specs.Parts.{seen};
ghost use Rattle.ld_trace_dat.specs.Recordings.{clock_6, header_info, kind_at, options_6, plain, said_6};

use crate::fault::{DatFault, ReadError, Wrong};
use crate::formats::{systems, texts};
use crate::options::{Progress, options, start_at};
use crate::part::{key, long_sized, part, word, word_sized};
use crate::processors::{Row, processors};
use crate::recording::Recording;
use crate::section::Span;
use crate::start::Version;
use std::alloc::Global;

/// The text of `header_page`, and where that of `header_event`, which follows, ends.
#[tactic(auto, unfolding(crate::specs::Recordings::header_info))]
pub(crate) fn header_info(bytes: &[u8], at: usize) -> Result<(&[u8], usize), DatFault>
    ensures { seen (λ x. (x.0.now, x.1)) result ≡ header_info bytes.entry.now at }
{
    let start = key(bytes, at, b"header_page\0", Wrong::Name)?;
    let (page, end) = long_sized(bytes, start)?;
    let start = key(bytes, end, b"header_event\0", Wrong::Name)?;
    let (_, end) = long_sized(bytes, start)?;
    Ok((page, end))
}

/// Behind the word that says that pages follow.
#[tactic(auto, unfolding(crate::specs::Recordings::kind_at))]
fn kind_at(bytes: &[u8], at: usize) -> Result<usize, DatFault>
    ensures { result ≡ kind_at bytes.now at }
{
    let (kind, end) = part(bytes, at, 10)?;
    if kind == b"flyrecord\0".as_slice() {
        Ok(end)
    } else if kind == b"latency  \0".as_slice() {
        Err(DatFault {
            offset: at,
            wrong: Wrong::Latency,
        })
    } else {
        Err(DatFault {
            offset: at,
            wrong: Wrong::Name,
        })
    }
}

/// What the options say, and where what follows the word for pages stands.
#[tactic(auto, unfolding(crate::specs::Recordings::options_6))]
fn options_6(bytes: &[u8], at: usize) -> Result<Progress, DatFault>
    ensures { result ≡ options_6 bytes.now at }
{
    let (kind, end) = part(bytes, at, 10)?;
    let said = if kind == b"options  \0".as_slice() {
        options(bytes, Version::Six, end)?
    } else {
        start_at(at)
    };
    if let Some(buffer) = said.found.buffer {
        return Err(DatFault {
            offset: buffer.at,
            wrong: Wrong::Buffers,
        });
    }
    let end = kind_at(bytes, said.at)?;
    Ok(Progress { at: end, ..said })
}

/// The clock behind the table of processors, if an option says that it is there.
fn clock_6(bytes: &[u8], option: Option<Span>, at: usize) -> Result<(&[u8], usize), DatFault>
    ensures { seen (λ x. (x.0.now, x.1)) result ≡ clock_6 bytes.entry.now option at }
{
    match option {
        None => Ok((&[], at)),
        Some(_) => long_sized(bytes, at),
    }
}

/// The recording of a file of version 6, whose parts stand from an offset on.
#[tactic(auto, unfolding(crate::specs::Recordings::said_6))]
pub(crate) fn read_6(alloc: Global, bytes: &[u8], at: usize) -> Result<Recording<'_>, ReadError>
    ensures { Gives plain result (said_6 bytes.entry.now at) }
{
    let (header_page, at) = header_info(bytes, at)?;
    let (_, at) = texts(alloc, bytes, at)?;
    let (systems, at) = systems(alloc, bytes, at)?;
    let (symbols, at) = word_sized(bytes, at)?;
    let (_, at) = word_sized(bytes, at)?;
    let (names, at) = long_sized(bytes, at)?;
    let (count, at) = word(bytes, at)?;
    let said = options_6(bytes, at)?;
    let first = Row {
        at: said.at,
        number: 0,
        low: said.at,
    };
    let (processors, row) = processors(alloc, bytes, bytes, Version::Six, count, first)?;
    let (clock, _) = clock_6(bytes, said.found.clock, row.at)?;
    Ok(Recording {
        header_page,
        systems,
        symbols,
        names,
        clock,
        processors,
    })
}
