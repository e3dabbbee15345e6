//! Folders that sources are looked for in.

use crate::paths::{LONGEST_PATH, behind_ups, rest_below, shorter};
use std::alloc::{AllocError, Global};
use std::io;
use std::rt::Files;

/// A folder that sources are looked for in.
#[derive(Drop)]
pub struct Folder<'a> {
    /// Its name as it was given.
    name: &'a str,
    /// Its absolute path, in which no part is a link.
    real: String,
}

impl<'a> Folder<'a> {
    /// The folder of this name.
    ///
    /// # Errors
    ///
    /// What the system says if it isn't there, or if it is no folder.
    pub fn of<R: Files>(rt: &R, alloc: Global, name: &'a str) -> io::Result<Folder<'a>> {
        let real = rt.canonicalize(alloc, name)?.into_string();
        if rt.metadata(&real)?.is_dir() {
            Ok(Folder { name, real })
        } else {
            Err(io::Error::from(io::ErrorKind::NotADirectory))
        }
    }

    /// What a path has behind this folder, if it lies below it as it is.
    fn rest<'p>(&self, path: &'p str) -> Option<&'p str> {
        match rest_below(path, &self.real) {
            Some(rest) => Some(rest),
            None => rest_below(path, self.name),
        }
    }

    /// The absolute path, without links, of the file that has this path in the folder. `None` if there is no plain file,
    /// or if a link leads to one elsewhere.
    fn file<R: Files>(
        &self,
        rt: &R,
        alloc: Global,
        path: &str,
    ) -> Result<Option<String>, AllocError> {
        let folder = self.real.as_str();
        let joined = format!(in alloc; "{folder}/{path}")?;
        let Some(real) = there(rt.canonicalize(alloc, &joined))? else {
            return Ok(None);
        };
        let real = real.into_string();
        if rest_below(&real, folder).is_none() {
            return Ok(None);
        }
        match there(rt.metadata(&real))? {
            Some(found) if found.is_file() => Ok(Some(real)),
            _ => Ok(None),
        }
    }
}

/// What the system gave, or `None` if it says no.
///
/// # Errors
///
/// `AllocError` if a growth of memory was refused.
pub(crate) fn there<T: Drop>(given: io::Result<T>) -> Result<Option<T>, AllocError> {
    match given {
        Ok(value) => Ok(Some(value)),
        Err(error) if error.kind() == io::ErrorKind::OutOfMemory => Err(AllocError),
        Err(_) => Ok(None),
    }
}

/// The absolute path, without links, of the file below one of these folders that a recorded path stands for: that very file
/// if it lies below one, else the one that has the longest end of the path there, in the first such folder.
///
/// # Errors
///
/// `AllocError` if a growth of memory was refused.
pub(crate) fn found<R: Files>(
    rt: &R,
    alloc: Global,
    folders: &[Folder<'_>],
    path: &[u8],
) -> Result<Option<String>, AllocError> {
    if path.len() > LONGEST_PATH {
        return Ok(None);
    }
    let Ok(path) = str::from_utf8(path) else {
        return Ok(None);
    };
    for folder in folders {
        if let Some(rest) = folder.rest(path) {
            if let Some(file) = folder.file(rt, alloc, rest)? {
                return Ok(Some(file));
            }
        }
    }
    longest_end(rt, alloc, folders, behind_ups(path))
}

/// The file that has the longest end of a path in one of these folders.
fn longest_end<R: Files>(
    rt: &R,
    alloc: Global,
    folders: &[Folder<'_>],
    path: &str,
) -> Result<Option<String>, AllocError> {
    let mut end = path;
    // Each part but the last one has a `/`.
    for _ in 0..=path.len() {
        for folder in folders {
            if let Some(file) = folder.file(rt, alloc, end)? {
                return Ok(Some(file));
            }
        }
        match shorter(end) {
            Some(rest) => end = rest,
            None => break,
        }
    }
    Ok(None)
}
