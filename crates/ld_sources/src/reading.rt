//! Reads sources.

use crate::calls::calls_of;
use crate::folders::{Folder, found, there};
use crate::sources::{SourceFile, Sources};
use ld_io::{ReadFault, Std, read_all};
use ld_rows::{Frame, Rows};
use std::alloc::{AllocError, Global};
use std::rt::Files;
use std::{fs, io};

/// How many bytes a source has at most. Of a longer file nothing is shown.
pub const LONGEST_SOURCE: usize = 16 << 20;

/// The sources of the calls behind violations, as far as files below these folders have them. Each file is read once, and
/// none outside the folders. A file that can't be read has no line. May wait.
///
/// # Errors
///
/// `AllocError` if a growth of memory was refused.
pub fn read_sources<'r, R: Files>(
    rt: &R,
    alloc: Global,
    folders: &[Folder<'_>],
    rows: &'r Rows<'_>,
) -> Result<Sources<'r>, AllocError> {
    let mut sources = Sources::none(alloc);
    if folders.is_empty() {
        return Ok(sources);
    }
    let calls = calls_of(alloc, rows)?;
    for call in &calls {
        want(rt, alloc, folders, &mut sources, *call)?;
    }
    for (path, file) in sources.files.iter_mut() {
        if let Some(bytes) = read_source(rt, alloc, path)? {
            file.keep(alloc, &bytes)?;
        }
    }
    Ok(sources)
}

/// Wants the lines around a call to be shown, if its file is found.
fn want<'r, R: Files>(
    rt: &R,
    alloc: Global,
    folders: &[Folder<'_>],
    sources: &mut Sources<'r>,
    call: &'r Frame,
) -> Result<(), AllocError> {
    let Some(line) = call.line else {
        return Ok(());
    };
    let place = match sources.places.get(call.file.as_slice()) {
        Some(place) => *place,
        None => look_for(rt, alloc, folders, sources, &call.file)?,
    };
    match place {
        Some(place) => match sources.files.get_index_mut(place) {
            Some(file) => file.want(line),
            None => Ok(()),
        },
        None => Ok(()),
    }
}

/// The place of the file that a recorded path stands for, which is noted.
fn look_for<'r, R: Files>(
    rt: &R,
    alloc: Global,
    folders: &[Folder<'_>],
    sources: &mut Sources<'r>,
    path: &'r [u8],
) -> Result<Option<usize>, AllocError> {
    let place = match found(rt, alloc, folders, path)? {
        Some(file) => Some(place_of(alloc, sources, file)?),
        None => None,
    };
    sources.places.insert(path, place)?;
    Ok(place)
}

/// The place of a file, which is put behind the others if it is new.
fn place_of(alloc: Global, sources: &mut Sources<'_>, file: String) -> Result<usize, AllocError> {
    match sources.files.get_index_of(file.as_str()) {
        Some(place) => Ok(place),
        None => {
            let (place, _) = sources.files.insert_full(file, SourceFile::new(alloc))?;
            Ok(place)
        }
    }
}

/// The bytes of a file, if it can be read and isn't too long. May wait.
fn read_source<R: Files>(rt: &R, alloc: Global, path: &str) -> Result<Option<Vec<u8>>, AllocError> {
    let Some(file) = there(fs::open(rt, path))? else {
        return Ok(None);
    };
    let front = io::Read::take(file, LONGEST_SOURCE as u64 + 1);
    match read_all(alloc, &mut Std::new(front)) {
        Ok(bytes) if bytes.len() <= LONGEST_SOURCE => Ok(Some(bytes)),
        Ok(_) | Err(ReadFault::Read) => Ok(None),
        Err(ReadFault::Memory) => Err(AllocError),
    }
}
