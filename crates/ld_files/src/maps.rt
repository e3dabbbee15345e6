//! The maps that recorders wrote beside the files.

use crate::fault::Fault;
use crate::streams::Streams;
use ld_commands::STANDARD_INPUT;
use ld_io::{ReadFault, Std, read_all};
use ld_source_map::{Map, MapFault, Maps};
use ld_trace::LONGEST_STREAM;
use std::alloc::{AllocError, Global};
use std::rt::Files;
use std::{fs, io};
use thiserror::Error;

/// What a map is called.
#[derive(Clone, Copy)]
enum MapName<'a> {
    /// So, by a word of the command line.
    Given(&'a str),
    /// As this file, with `.places` behind it.
    Beside(&'a str),
}

impl<'a> MapName<'a> {
    /// This is wrong with it.
    fn fault(self, fault: WrongMap) -> Fault<'a> {
        match self {
            MapName::Given(name) => Fault::Map(name, fault),
            MapName::Beside(file) => Fault::MapBeside(file, fault),
        }
    }
}

/// What is wrong with a map. The text stands behind its name.
#[derive(Debug, Drop, Error)]
pub enum WrongMap {
    /// It can't be opened.
    #[error(": {0}")]
    Open(io::Error),
    /// A read of it failed.
    #[error(": read failed")]
    Read,
    /// It has more bytes than a stream may have.
    #[error(": TooLong: more than 2,147,483,648 bytes")]
    TooLong,
    /// This line isn't one that a recorder writes, or is the last one of a map that is cut off.
    #[error(":{0}: BadMap: no whole map, as a recorder writes it beside a stream")]
    Line(u64),
    /// It is the map of another stream: one of so many lines, where this one has so many.
    #[error(": BadMap: it is of {of} lines, and the stream has {has}: another stream, or one that was cut off")]
    OtherStream { of: u64, has: u64 },
}

/// The text of a map.
#[derive(Drop)]
pub struct MapText<'a> {
    name: MapName<'a>,
    bytes: Vec<u8>,
}

/// The texts of the maps of these files, in turn: those of these names, and for each other file that of the map beside it,
/// `FILE.places`, which says nothing where it isn't there. None where no file has a map. May wait.
///
/// # Errors
///
/// `Map` or `MapBeside` with `Open`, `Read` or `TooLong`, by the first map that has such a fault; or `Memory` where a growth of
/// memory was refused.
pub fn read_maps<'a, R: Files + io::Input + AllocGlobal>(
    rt: &R,
    names: &[&'a str],
    files: &[&'a str],
) -> Result<Vec<MapText<'a>>, Fault<'a>> {
    let mut texts = Vec::new(rt.alloc());
    for name in names {
        let text = read_given(rt, *name)?;
        keep(&mut texts, text)?;
    }
    let mut has_map = !texts.is_empty();
    for file in files.iter().skip(names.len()) {
        let text = read_beside(rt, *file)?;
        has_map = has_map || !text.bytes.is_empty();
        keep(&mut texts, text)?;
    }
    if !has_map {
        texts.clear();
    }
    Ok(texts)
}

/// The text of the map of this name. May wait.
fn read_given<'a, R: Files + io::Input + AllocGlobal>(
    rt: &R,
    name: &'a str,
) -> Result<MapText<'a>, Fault<'a>> {
    let map = MapName::Given(name);
    if name == STANDARD_INPUT {
        return read_opened(rt.alloc(), map, rt.reader());
    }
    match fs::open(rt, name) {
        Ok(opened) => read_opened(rt.alloc(), map, opened),
        Err(error) => Err(map.fault(WrongMap::Open(error))),
    }
}

/// The text of the map beside this file: an empty one where there is none. May wait.
fn read_beside<'a, R: Files + AllocGlobal>(
    rt: &R,
    file: &'a str,
) -> Result<MapText<'a>, Fault<'a>> {
    let name = MapName::Beside(file);
    let nothing = MapText {
        name,
        bytes: Vec::new(rt.alloc()),
    };
    if file == STANDARD_INPUT {
        return Ok(nothing);
    }
    let path = format!(in rt.alloc(); "{file}.places")?;
    match fs::open(rt, &path) {
        Ok(opened) => read_opened(rt.alloc(), name, opened),
        Err(error) if is_missing(error.kind()) => Ok(nothing),
        Err(error) => Err(name.fault(WrongMap::Open(error))),
    }
}

/// Whether an error says that there is no such file: no file has a name that is too long.
fn is_missing(kind: io::ErrorKind) -> bool {
    matches!(
        kind,
        io::ErrorKind::NotFound | io::ErrorKind::InvalidFilename
    )
}

/// The text of an opened map, to its end. May wait.
fn read_opened<'a, T: io::Read + Drop>(
    alloc: Global,
    name: MapName<'a>,
    opened: T,
) -> Result<MapText<'a>, Fault<'a>> {
    match read_all(alloc, &mut Std::new(opened)) {
        Ok(bytes) if bytes.len() > LONGEST_STREAM => Err(name.fault(WrongMap::TooLong)),
        Ok(bytes) => Ok(MapText { name, bytes }),
        Err(ReadFault::Read) => Err(name.fault(WrongMap::Read)),
        Err(ReadFault::Memory) => Err(Fault::Memory),
    }
}

/// What these texts say.
///
/// # Errors
///
/// `Map` or `MapBeside` with the first line of the first text that is no map, or `Memory` where a growth of memory was refused.
pub fn maps_in<'a, 'm>(alloc: Global, texts: &'m [MapText<'a>]) -> Result<Vec<Map<'m>>, Fault<'a>> {
    let mut maps = Vec::new(alloc);
    for text in texts {
        match Map::of(alloc, &text.bytes) {
            Ok(map) => keep(&mut maps, map)?,
            Err(MapFault::Line(line)) => return Err(text.name.fault(WrongMap::Line(line))),
            Err(MapFault::Memory) => return Err(Fault::Memory),
        }
    }
    Ok(maps)
}

/// What these maps say of the files of these names, which were read as one stream. The texts are theirs.
///
/// # Errors
///
/// `Map` or `MapBeside` with the first map of another stream, or `Memory` where a growth of memory was refused.
pub fn maps_of<'a, 'm>(
    alloc: Global,
    texts: &[MapText<'a>],
    maps: Vec<Map<'m>>,
    files: &[&'m str],
    streams: &'m Streams<'_>,
) -> Result<Maps<'m>, Fault<'a>> {
    for ((text, map), has) in texts.iter().zip(&maps).zip(&streams.lines) {
        if let Some(of) = map.line_count()
            && of != *has
        {
            return Err(text.name.fault(WrongMap::OtherStream { of, has: *has }));
        }
    }
    Ok(Maps::of(alloc, files, maps, &streams.bytes)?)
}

/// Puts one behind others.
fn keep<T: Drop>(all: &mut Vec<T>, one: T) -> Result<(), AllocError> {
    all.push(one)?;
    Ok(())
}
