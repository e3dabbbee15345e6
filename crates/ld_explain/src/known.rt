//! Writes what recorders say of lines and classes. Each call answers `AllocError` where memory for it was refused.

use ld_escape::write_visible;
use ld_places::ShownPlaces;
use ld_source_map::{At, Maps, Origin, write_plain};
use std::alloc::{AllocError, Global};
use std::io::Write;

/// What is known of a line of the stream. The maps are those of the files that were read.
pub fn known_at<'m>(places: &ShownPlaces<'_>, maps: &Maps<'m>, line: u64) -> Option<At<'m>> {
    let own = places.files.place(line)?;
    maps.line(own.file, own.line)
}

/// What is known of a line, on a line of its own.
pub fn write_known_line(alloc: Global, out: &mut Vec<u8>, at: At<'_>) -> Result<(), AllocError> {
    out.extend_from_slice(b"      ")?;
    write_known(alloc, out, at)?;
    out.push(b'\n')?;
    Ok(())
}

/// What is known of a class, on lines of their own, if something is.
pub fn write_known_class(
    alloc: Global,
    out: &mut Vec<u8>,
    maps: &Maps<'_>,
    class: &[u8],
) -> Result<(), AllocError> {
    if let Some(origin) = maps.origin(class) {
        out.extend_from_slice(b"    ")?;
        out.extend_from_slice(class)?;
        write_origin(alloc, out, origin)?;
        out.push(b'\n')?;
    }
    if let Some(taken) = maps.taken(class) {
        out.extend_from_slice(b"    ")?;
        out.extend_from_slice(class)?;
        out.extend_from_slice(b" is acquired most ")?;
        write_known(alloc, out, taken.at)?;
        match taken.count {
            1 => out.extend_from_slice(b", once\n")?,
            count => writeln!(out, ", {count} times").map_err(|_| AllocError)?,
        }
    }
    Ok(())
}

/// What the locks of a class are.
fn write_origin(alloc: Global, out: &mut Vec<u8>, origin: Origin<'_>) -> Result<(), AllocError> {
    match origin {
        Origin::Variable { name, file } => {
            out.extend_from_slice(b" is the variable ")?;
            write_recorded(alloc, out, name)?;
            out.extend_from_slice(b" of ")?;
            write_recorded(alloc, out, file)
        }
        Origin::Initialised(at) => {
            out.extend_from_slice(b" is initialised ")?;
            write_known(alloc, out, at)
        }
        Origin::FirstLocked(at) => {
            out.extend_from_slice(b" is first locked ")?;
            write_known(alloc, out, at)
        }
    }
}

/// Where in the source something is, or on which line of a recording.
pub fn write_known(alloc: Global, out: &mut Vec<u8>, at: At<'_>) -> Result<(), AllocError> {
    match at {
        At::Place { function, source } => {
            out.extend_from_slice(b"in ")?;
            write_recorded(alloc, out, function)?;
            out.extend_from_slice(b" at ")?;
            write_recorded(alloc, out, source)
        }
        At::Recorded(line) => {
            write!(out, "from line {line} of the recording").map_err(|_| AllocError)
        }
    }
}

/// A text that a recorder wrote, as it was before, but for bytes that would control a terminal or end a line.
fn write_recorded(alloc: Global, out: &mut Vec<u8>, written: &[u8]) -> Result<(), AllocError> {
    let mut plain = Vec::new(alloc);
    write_plain(&mut plain, written)?;
    write_visible(out, &plain)
}
