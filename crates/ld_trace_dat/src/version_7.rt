//! A file of version 7: its options say where the sections of its parts stand.
ghost use Rattle.std.specs.Prelude.{◌≡◌, map};
ghost use Rattle.ld_trace_dat.specs.Lists.{Gives};
ghost use Rattle.ld_trace_dat.specs.Parts.{seen};
ghost use Rattle.ld_trace_dat.specs.Recordings.{buffer_at, contents, first_option, named, names_at, plain, plain_processor, said_7, symbols_at};

use crate::fault::{DatFault, ReadError, Wrong};
use crate::formats::systems;
use crate::options::options;
use crate::part::{long, long_sized, part, text, word, word_sized};
use crate::processors::{Processor, Row, processors};
use crate::recording::Recording;
use crate::section::{Span, section};
use crate::start::Version;
use crate::version_6::header_info;
use std::alloc::Global;

/// The bytes up to the end of the section of this kind that an option names, and where its contents begin.
#[tactic(auto, unfolding(crate::specs::Recordings::contents))]
fn contents(bytes: &[u8], option: Span, kind: usize) -> Result<(&[u8], usize), DatFault>
    ensures { seen (λ x. (x.0.now, x.1)) result ≡ contents bytes.entry.now option kind }
{
    let (inside, _) = part(bytes, 0, option.end)?;
    let (offset, _) = long(inside, option.at)?;
    let held = section(bytes, offset, kind)?;
    let (inside, _) = part(bytes, 0, held.end)?;
    Ok((inside, held.at))
}

/// An option that each file has, of those that end at an offset.
fn named(option: Option<Span>, end: usize) -> Result<Span, DatFault>
    ensures { result ≡ named option end }
{
    match option {
        Some(span) => Ok(span),
        None => Err(DatFault {
            offset: end,
            wrong: Wrong::Missing,
        }),
    }
}

/// The text of the symbols; empty if no option names it.
fn symbols_at(bytes: &[u8], option: Option<Span>) -> Result<(&[u8], usize), DatFault>
    ensures { seen (λ x. (x.0.now, x.1)) result ≡ symbols_at bytes.entry.now option }
{
    let Some(option) = option else {
        return Ok((&[], 0));
    };
    let (inside, at) = contents(bytes, option, 19)?;
    word_sized(inside, at)
}

/// The text of the names; empty if no option names it.
fn names_at(bytes: &[u8], option: Option<Span>) -> Result<(&[u8], usize), DatFault>
    ensures { seen (λ x. (x.0.now, x.1)) result ≡ names_at bytes.entry.now option }
{
    let Some(option) = option else {
        return Ok((&[], 0));
    };
    let (inside, at) = contents(bytes, option, 21)?;
    long_sized(inside, at)
}

/// The clock of a buffer, and the pages of its processors.
#[tactic(auto, unfolding(crate::specs::Recordings::buffer_at))]
fn buffer_at(
    alloc: Global,
    bytes: &[u8],
    option: Span,
) -> Result<(&[u8], Vec<Processor<'_>>), ReadError>
    ensures { Gives (λ x. (x.0.now, map plain_processor x.1.items)) result (buffer_at bytes.entry.now option) }
{
    let (table, _) = part(bytes, 0, option.end)?;
    let (_, at) = long(table, option.at)?;
    let (_, at) = text(table, at)?;
    let (clock, at) = text(table, at)?;
    let (_, at) = word(table, at)?;
    let (count, at) = word(table, at)?;
    let (pages, low) = contents(bytes, option, 3)?;
    let first = Row { at, number: 0, low };
    let (processors, _) = processors(alloc, table, pages, Version::Seven, count, first)?;
    Ok((clock, processors))
}

/// Where the contents of the first section of options stand.
#[tactic(auto, unfolding(crate::specs::Recordings::first_option))]
fn first_option(bytes: &[u8], at: usize) -> Result<usize, DatFault>
    ensures { result ≡ first_option bytes.now at }
{
    let (_, at) = text(bytes, at)?;
    let (_, at) = text(bytes, at)?;
    let (offset, _) = long(bytes, at)?;
    let inside = section(bytes, offset, 0)?;
    Ok(inside.at)
}

/// The recording of a file of version 7, which goes on at an offset.
#[tactic(auto, unfolding(crate::specs::Recordings::said_7))]
pub(crate) fn read_7(alloc: Global, bytes: &[u8], at: usize) -> Result<Recording<'_>, ReadError>
    ensures { Gives plain result (said_7 bytes.entry.now at) }
{
    let first = first_option(bytes, at)?;
    let said = options(bytes, Version::Seven, first)?;
    let headers = named(said.found.headers, said.at)?;
    let formats = named(said.found.formats, said.at)?;
    let buffer = named(said.found.buffer, said.at)?;
    let (inside, start) = contents(bytes, headers, 16)?;
    let (header_page, _) = header_info(inside, start)?;
    let (inside, start) = contents(bytes, formats, 18)?;
    let (systems, _) = systems(alloc, inside, start)?;
    let (symbols, _) = symbols_at(bytes, said.found.symbols)?;
    let (names, _) = names_at(bytes, said.found.names)?;
    let (clock, processors) = buffer_at(alloc, bytes, buffer)?;
    Ok(Recording {
        header_page,
        systems,
        symbols,
        names,
        clock,
        processors,
    })
}
