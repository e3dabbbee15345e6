//! Files that other programs open: those of the sources if a map says so, else those of the traces.

use ld_rows::{At, Frame, Line, Place};

/// The folder that paths lose, such as that of a checkout; empty for none. A path in another folder stays as it is.
#[derive(Clone, Copy, Debug)]
pub struct Stripped<'p> {
    pub prefix: &'p [u8],
}

impl Stripped<'_> {
    /// What a path has behind the prefix and a `/`, if it begins so.
    fn rest<'f>(&self, path: &'f [u8]) -> Option<&'f [u8]> {
        match path.strip_prefix(self.prefix) {
            Some(rest) if self.prefix.is_empty() || self.prefix.ends_with(b"/") => Some(rest),
            Some(rest) => rest.strip_prefix(b"/"),
            None => None,
        }
    }

    /// A path without its beginning, or as it is if it begins otherwise.
    pub(crate) fn path<'f>(&self, path: &'f [u8]) -> &'f [u8] {
        self.rest(path).unwrap_or(path)
    }
}

/// A line of a file.
#[derive(Clone, Copy, Debug)]
pub(crate) struct Spot<'f> {
    pub(crate) file: &'f [u8],
    /// Counted from 1.
    pub(crate) line: u64,
}

/// Where a line of a trace comes from: the innermost call with a line of source in a file that begins with the prefix,
/// else the innermost one with a line of source; without such a call the line itself, in its trace.
pub(crate) fn spot_of<'l>(line: &'l Line<'_>, stripped: &Stripped<'_>) -> Spot<'l> {
    match &line.place {
        Some(Place::Called(frames)) => match called(frames, stripped) {
            Some(spot) => spot,
            None => traced(&line.at, stripped),
        },
        _ => traced(&line.at, stripped),
    }
}

/// The line of source to point at, if a call has one.
fn called<'l>(frames: &'l [Frame], stripped: &Stripped<'_>) -> Option<Spot<'l>> {
    let mut innermost = None;
    for frame in frames {
        if let Some(spot) = source_of(frame, stripped) {
            if stripped.rest(&frame.file).is_some() {
                return Some(spot);
            }
            innermost = innermost.or(Some(spot));
        }
    }
    innermost
}

/// The line of source of a call. If a map names none, its file is no file either, but a function and an offset.
pub(crate) fn source_of<'f>(frame: &'f Frame, stripped: &Stripped<'_>) -> Option<Spot<'f>> {
    let line = frame.line?;
    Some(Spot {
        file: stripped.path(&frame.file),
        line,
    })
}

/// A line of a trace, in its file.
pub(crate) fn traced<'l>(at: &At<'l>, stripped: &Stripped<'_>) -> Spot<'l> {
    Spot {
        file: stripped.path(at.path),
        line: at.file_line,
    }
}
