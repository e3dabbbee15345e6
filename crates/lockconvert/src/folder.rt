//! The files of a recorded folder. What reads them may wait.

use crate::fault::Fault;
use crate::parts::{Holder, KNOWN, Known, Parts};
use ld_trace_dat::Processor;
use std::alloc::{AllocError, Global};
use std::rt::Files;
use std::{fs, io};

/// More processors than a kernel has.
const MOST_PROCESSORS: usize = 65_536;

/// What the files of a folder have.
#[derive(Drop)]
pub struct Folder<'a> {
    path: &'a str,
    header_page: Vec<u8>,
    formats: Vec<(Known, Vec<u8>)>,
    clock: Vec<u8>,
    /// Of each processor, from 0.
    pages: Vec<Vec<u8>>,
    names: Vec<u8>,
    symbols: Vec<u8>,
}

/// The bytes of a file in a folder; `None` if there is no such file.
fn read_if_there<R: Files + AllocGlobal>(
    rt: &R,
    folder: &str,
    name: &str,
) -> Result<Option<Vec<u8>>, Fault> {
    let path = Holder::Folder(folder).part(rt.alloc(), name)?;
    match fs::read(rt, path.as_str()) {
        Ok(bytes) => Ok(Some(bytes)),
        Err(error) if error.kind() == io::ErrorKind::NotFound => Ok(None),
        Err(error) => Err(Fault::Read(path, error)),
    }
}

/// The bytes of a file in a folder; none if there is no such file.
fn read_or_none<R: Files + AllocGlobal>(
    rt: &R,
    folder: &str,
    name: &str,
) -> Result<Vec<u8>, Fault> {
    match read_if_there(rt, folder, name)? {
        Some(bytes) => Ok(bytes),
        None => Ok(Vec::new(rt.alloc())),
    }
}

/// The bytes of a file in a folder.
fn read_file<R: Files + AllocGlobal>(rt: &R, folder: &str, name: &str) -> Result<Vec<u8>, Fault> {
    let path = Holder::Folder(folder).part(rt.alloc(), name)?;
    match fs::read(rt, path.as_str()) {
        Ok(bytes) => Ok(bytes),
        Err(error) => Err(Fault::Read(path, error)),
    }
}

/// The formats that the folder has.
fn read_formats<R: Files + AllocGlobal>(
    rt: &R,
    folder: &str,
) -> Result<Vec<(Known, Vec<u8>)>, Fault> {
    let mut formats = Vec::new(rt.alloc());
    for event in &KNOWN {
        let name = event.file(rt.alloc())?;
        if let Some(text) = read_if_there(rt, folder, name.as_str())? {
            formats.push((*event, text)).map_err(AllocError::from)?;
        }
    }
    Ok(formats)
}

/// The pages of each processor.
fn read_pages<R: Files + AllocGlobal>(rt: &R, folder: &str) -> Result<Vec<Vec<u8>>, Fault> {
    let mut pages = Vec::new(rt.alloc());
    for processor in 0..MOST_PROCESSORS {
        let name = format!(in rt.alloc(); "per_cpu/cpu{processor}/trace_pipe_raw")?;
        match read_if_there(rt, folder, name.as_str())? {
            Some(bytes) => pages.push(bytes).map_err(AllocError::from)?,
            None => break,
        }
    }
    if pages.is_empty() {
        return Err(Fault::NoPages(String::from_str(rt.alloc(), folder)?));
    }
    Ok(pages)
}

impl<'a> Folder<'a> {
    /// What the files of a folder have.
    ///
    /// # Errors
    ///
    /// A file can't be read, or one that each folder has isn't there.
    pub fn read<R: Files + AllocGlobal>(rt: &R, path: &'a str) -> Result<Folder<'a>, Fault> {
        let header_page = read_file(rt, path, "events/header_page")?;
        let formats = read_formats(rt, path)?;
        let clock = read_file(rt, path, "trace_clock")?;
        let pages = read_pages(rt, path)?;
        let names = read_or_none(rt, path, "saved_cmdlines")?;
        let symbols = read_or_none(rt, path, "kallsyms")?;
        Ok(Folder {
            path,
            header_page,
            formats,
            clock,
            pages,
            names,
            symbols,
        })
    }

    /// The parts of the recording that the folder holds.
    ///
    /// # Errors
    ///
    /// A growth of memory was refused.
    pub fn parts(&self, alloc: Global) -> Result<Parts<'_>, AllocError> {
        let mut formats = Vec::new(alloc);
        for (event, text) in &self.formats {
            formats.push((*event, text.as_slice()))?;
        }
        let mut processors = Vec::new(alloc);
        for (number, bytes) in self.pages.iter().enumerate() {
            let pages = bytes.as_slice();
            processors.push(Processor { number, pages })?;
        }
        Ok(Parts {
            holder: Holder::Folder(self.path),
            header_page: &self.header_page,
            formats,
            processors,
            clock: &self.clock,
            names: &self.names,
            symbols: &self.symbols,
        })
    }
}
