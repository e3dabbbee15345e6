//! Lines of sources.

use indexmap::{IndexMap, IndexSet};
use ld_trace::{next_line, text};
use std::alloc::{AllocError, Global};
use std::ops::RangeInclusive;

/// How many lines are shown before and behind a call.
pub const AROUND: u64 = 2;

/// How many bytes of a line are shown at most.
pub const LONGEST_LINE: usize = 400;

/// The lines that are shown of a call in this line: those of them that the file has.
pub fn around(line: u64) -> RangeInclusive<u64> {
    line.saturating_sub(AROUND)..=line.saturating_add(AROUND)
}

/// A line of a source.
#[derive(Drop)]
pub struct SourceLine {
    /// Its first bytes, without its end. They may be any but LF.
    pub text: Vec<u8>,
    /// Whether it has more bytes.
    pub is_cut: bool,
}

impl SourceLine {
    /// A line with these bytes.
    fn of(alloc: Global, line: &[u8]) -> Result<SourceLine, AllocError> {
        let shown = front(line);
        Ok(SourceLine {
            text: shown.to_vec(alloc)?,
            is_cut: shown.len() < line.len(),
        })
    }
}

/// The bytes of a line that are shown. A character is shown whole, or not at all.
fn front(line: &[u8]) -> &[u8] {
    let Some(behind) = line.get(LONGEST_LINE..) else {
        return line;
    };
    let Some(shown) = line.get(..LONGEST_LINE) else {
        return line;
    };
    match behind.first() {
        Some(next) if is_within(*next) => whole(shown),
        _ => shown,
    }
}

/// Bytes without the character that they end in, which goes on behind them: UTF-8 has four bytes at most.
fn whole(bytes: &[u8]) -> &[u8] {
    let mut left = bytes;
    for _ in 0..4u8 {
        let Some((last, front)) = left.split_last() else {
            break;
        };
        left = front;
        if !is_within(*last) {
            break;
        }
    }
    left
}

/// Whether a byte is one of UTF-8 that no character begins with.
fn is_within(byte: u8) -> bool {
    matches!(byte, 0x80..=0xbf)
}

/// A file of sources, as far as it is shown.
#[derive(Drop)]
pub struct SourceFile {
    /// The numbers of the lines that are shown if the file has them.
    wanted: IndexSet<u64>,
    /// Those that it has.
    lines: IndexMap<u64, SourceLine>,
}

impl SourceFile {
    /// A file of which nothing is shown.
    pub(crate) fn new(alloc: Global) -> SourceFile {
        SourceFile {
            wanted: IndexSet::new(alloc),
            lines: IndexMap::new(alloc),
        }
    }

    /// The line of this number, counted from 1, if it is shown and the file has it.
    pub fn line(&self, number: u64) -> Option<&SourceLine> {
        self.lines.get(&number)
    }

    /// Wants the lines around a call to be shown.
    pub(crate) fn want(&mut self, line: u64) -> Result<(), AllocError> {
        for number in around(line) {
            self.wanted.insert(number)?;
        }
        Ok(())
    }

    /// Keeps the wanted lines of these bytes, which are the file's.
    pub(crate) fn keep(&mut self, alloc: Global, bytes: &[u8]) -> Result<(), AllocError> {
        let mut left = bytes;
        // Each line has a byte.
        for number in 1..=bytes.len() as u64 {
            let Some((line, rest)) = next_line(left) else {
                break;
            };
            if self.wanted.contains(&number) {
                self.lines
                    .insert(number, SourceLine::of(alloc, text(line))?)?;
            }
            left = rest;
        }
        Ok(())
    }
}

/// The files that recorded paths stand for.
#[derive(Drop)]
pub struct Sources<'r> {
    /// The files that were found, by their absolute paths without links.
    pub(crate) files: IndexMap<String, SourceFile>,
    /// The place there of the file that a recorded path stands for; `None` if there is none.
    pub(crate) places: IndexMap<&'r [u8], Option<usize>>,
}

impl<'r> Sources<'r> {
    /// No file.
    pub fn none(alloc: Global) -> Sources<'r> {
        Sources {
            files: IndexMap::new(alloc),
            places: IndexMap::new(alloc),
        }
    }

    /// The file that a recorded path stands for, if it was found.
    pub fn file(&self, path: &[u8]) -> Option<&SourceFile> {
        let place = self.places.get(path)?;
        match place {
            Some(place) => match self.files.get_index(*place) {
                Some((_, file)) => Some(file),
                None => None,
            },
            None => None,
        }
    }
}
