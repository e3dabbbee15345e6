//! The map of a stream, as a recorder wrote it.

use crate::places::{Numbers, Places};
use crate::words::number;
use ld_trace::{next_line, text};
use std::alloc::{AllocError, Global};

/// What a map says of a line of its stream. Texts stand as the recorder wrote them ([`crate::write_plain`]).
#[derive(Clone, Copy, Debug, PartialEq, Eq)]
pub enum At<'m> {
    /// What the line acquires was acquired in this function, at this source line, or where that isn't known, at this
    /// place in its file.
    Place {
        function: &'m [u8],
        source: &'m [u8],
    },
    /// The line comes from that line of the recording.
    Recorded(u64),
}

/// Where locks of a class were acquired most often.
#[derive(Clone, Copy, Debug, PartialEq, Eq)]
pub struct Taken<'m> {
    /// Where.
    pub at: At<'m>,
    /// How often they were acquired there.
    pub count: u64,
}

/// Why a text is no map.
#[derive(Clone, Copy, Debug, PartialEq, Eq)]
pub enum MapFault {
    /// This line, counted from 1, isn't one that a recorder writes there; or it is the last one, and what has to
    /// follow it is cut off.
    Line(u64),
    /// A growth of memory was refused.
    Memory,
}

impl From<AllocError> for MapFault {
    fn from(_refusal: AllocError) -> MapFault {
        MapFault::Memory
    }
}

/// The map of a stream.
#[derive(Drop)]
pub struct Map<'m> {
    lines: Lines<'m>,
    places: Places<'m>,
}

/// The numbers of the lines of a stream.
#[derive(Drop)]
enum Lines<'m> {
    /// Of places.
    Places(Numbers<'m>),
    /// Of lines of the recording.
    Recorded(Vec<u64>),
}

/// The first line of a map of places.
const PLACES: &[u8] = b"places 1";

impl<'m> Map<'m> {
    /// What this text says, which a recorder of programs or one of kernels has written. Where it is empty it says
    /// nothing.
    ///
    /// # Errors
    ///
    /// `Line` where it is no such text, with its first line that isn't one; and `Memory` where a growth of memory
    /// was refused.
    pub fn of(alloc: Global, bytes: &'m [u8]) -> Result<Map<'m>, MapFault> {
        match next_line(bytes) {
            Some((line, rest)) if text(line) == PLACES => Map::of_places(alloc, rest),
            _ => {
                let lines = Lines::Recorded(recorded(alloc, bytes)?);
                let places = Places::new(alloc);
                Ok(Map { lines, places })
            }
        }
    }

    /// What a map of places says behind its first line.
    fn of_places(alloc: Global, bytes: &'m [u8]) -> Result<Map<'m>, MapFault> {
        let mut places = Places::new(alloc);
        match places.read(bytes) {
            Ok(numbers) => Ok(Map {
                lines: Lines::Places(numbers),
                places,
            }),
            Err(fault) => {
                drop(places);
                Err(fault)
            }
        }
    }

    /// How many lines its stream has, if it says so: each map of places does.
    pub fn line_count(&self) -> Option<u64> {
        match &self.lines {
            Lines::Places(numbers) => Some(numbers.count()),
            Lines::Recorded(_) => None,
        }
    }

    /// What it says of a line of its stream, counted from 1.
    pub fn line(&self, line: u64) -> Option<At<'m>> {
        let before = line.checked_sub(1)? as usize;
        match &self.lines {
            Lines::Places(numbers) => self.places.at(numbers.number(before)?),
            Lines::Recorded(lines) => Some(At::Recorded(lines.get(before).copied()?)),
        }
    }

    /// What it says of a class, whatever its subclass.
    pub fn taken(&self, class: &[u8]) -> Option<Taken<'m>> {
        self.places.taken(class)
    }
}

/// The numbers that the lines of this text say, each line one.
fn recorded(alloc: Global, bytes: &[u8]) -> Result<Vec<u64>, MapFault> {
    let mut lines = Vec::new(alloc);
    let mut left = bytes;
    let mut line: u64 = 0;
    // Each line has a byte.
    for _ in 0..bytes.len() {
        let Some((first, rest)) = next_line(left) else {
            break;
        };
        line = line.saturating_add(1);
        left = rest;
        let Some(number) = number(text(first)) else {
            return Err(MapFault::Line(line));
        };
        if lines.push(number).is_err() {
            return Err(MapFault::Memory);
        }
    }
    Ok(lines)
}
