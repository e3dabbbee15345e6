//! The recording that the command line names. What reads it may wait.

use crate::fault::{Fault, fault_of_file};
use crate::folder::Folder;
use crate::parts::{Parts, parts_of};
use crate::printing::{print_symbols, print_text};
use crate::words::Asked;
use ld_trace_dat::{ReadError, recording_of};
use std::rt::Files;
use std::{fs, io};

/// Writes what is asked of the recording with these parts to standard output.
fn print_asked<R: Print + AllocGlobal>(
    rt: &R,
    parts: &Parts<'_>,
    symbols: bool,
) -> Result<(), Fault> {
    let mut output = io::writer(rt);
    if symbols {
        print_symbols(&mut output, parts)
    } else {
        print_text(rt.alloc(), &mut output, parts)
    }
}

/// Whether there is a folder at a path.
fn is_folder<R: Files + AllocGlobal>(rt: &R, path: &str) -> Result<bool, Fault> {
    match fs::metadata(rt, path) {
        Ok(there) => Ok(there.is_dir()),
        Err(error) => Err(Fault::Read(String::from_str(rt.alloc(), path)?, error)),
    }
}

/// Writes what is asked of the recording that a file of trace-cmd holds.
fn print_file<R: Files + Print + AllocGlobal>(
    rt: &R,
    path: &str,
    symbols: bool,
) -> Result<(), Fault> {
    let bytes = match fs::read(rt, path) {
        Ok(bytes) => bytes,
        Err(error) => return Err(Fault::Read(String::from_str(rt.alloc(), path)?, error)),
    };
    match recording_of(rt.alloc(), &bytes) {
        Ok(recording) => {
            let parts = parts_of(rt.alloc(), path, recording)?;
            print_asked(rt, &parts, symbols)
        }
        Err(ReadError::Memory) => Err(Fault::Memory),
        Err(ReadError::Fault(fault)) => {
            Err(fault_of_file(String::from_str(rt.alloc(), path)?, fault))
        }
    }
}

/// Writes what the command line asks for to standard output.
///
/// # Errors
///
/// Why the text isn't whole.
pub fn print_recording<R: Files + Print + AllocGlobal>(
    rt: &R,
    asked: Asked<'_>,
) -> Result<(), Fault> {
    if !is_folder(rt, asked.recording)? {
        return print_file(rt, asked.recording, asked.symbols);
    }
    let folder = Folder::read(rt, asked.recording)?;
    let parts = folder.parts(rt.alloc())?;
    print_asked(rt, &parts, asked.symbols)
}
