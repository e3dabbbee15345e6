//! The files that traces say they come from.

use indexmap::IndexMap;
use ld_places::origin_of;
use ld_source_map::write_plain;
use ld_trace::Source;
use std::alloc::{AllocError, Global};

/// The paths of files that traces spell otherwise, by how they spell them: a blank of a path is `%20` there.
#[derive(Drop)]
pub struct FilePaths<'a> {
    paths: IndexMap<&'a [u8], Vec<u8>>,
}

impl<'a> FilePaths<'a> {
    /// Those that these traces say they come from.
    ///
    /// # Errors
    ///
    /// `AllocError` where a growth of memory was refused.
    pub fn of(alloc: Global, sources: &[Source<'a>]) -> Result<FilePaths<'a>, AllocError> {
        let mut paths = IndexMap::new(alloc);
        for source in sources {
            if let Some(origin) = origin_of(source.bytes) {
                if origin.file.contains(&b'%') && paths.get(origin.file).is_none() {
                    let mut path = Vec::new(alloc);
                    write_plain(&mut path, origin.file)?;
                    paths.insert(origin.file, path)?;
                }
            }
        }
        Ok(FilePaths { paths })
    }

    /// The path of a file that a trace spells so.
    pub fn path<'f>(&'f self, spelled: &'f str) -> &'f [u8] {
        match self.paths.get(spelled.as_bytes()) {
            Some(path) => path,
            None => spelled.as_bytes(),
        }
    }
}
