//! A map of places.

use crate::map::{At, MapFault, Taken};
use crate::words::{Fields, number, of_bytes};
use indexmap::IndexMap;
use ld_trace::{next_line, text};
use std::alloc::{AllocError, Global};

/// What the numbers of a map stand for.
#[derive(Drop)]
pub(crate) struct Places<'m> {
    /// What each number of a place stands for.
    places: IndexMap<u64, At<'m>>,
    /// Of each class the number of the place where it was acquired most often, and how often.
    taken: IndexMap<&'m [u8], (u64, u64)>,
}

/// The numbers of places of the lines of a stream.
#[derive(Clone, Copy)]
pub(crate) struct Numbers<'m> {
    bytes: &'m [u8],
    /// How many of the bytes each number has.
    width: usize,
    /// How many there are.
    count: u64,
}

/// How many lines a map of places speaks of, and how many bytes the number of each has.
#[derive(Clone, Copy)]
struct Size {
    lines: u64,
    bytes: u64,
}

/// The last line of a map of places, behind which the numbers stand.
const NUMBERS: &[u8] = b"numbers";

impl<'m> Places<'m> {
    /// Of no number.
    pub(crate) fn new(alloc: Global) -> Places<'m> {
        Places {
            places: IndexMap::new(alloc),
            taken: IndexMap::new(alloc),
        }
    }

    /// The place of this number.
    pub(crate) fn at(&self, number: u64) -> Option<At<'m>> {
        self.places.get(&number).copied()
    }

    /// Where locks of a class were acquired most often.
    pub(crate) fn taken(&self, class: &[u8]) -> Option<Taken<'m>> {
        let (place, count) = self.taken.get(&class).copied()?;
        let at = self.at(place)?;
        Some(Taken { at, count })
    }

    /// Reads a map of places behind its first line, to the numbers of the lines at its end.
    pub(crate) fn read(&mut self, bytes: &'m [u8]) -> Result<Numbers<'m>, MapFault> {
        let mut size = None;
        let mut left = bytes;
        let mut line: u64 = 1;
        // Each line has a byte.
        for _ in 0..bytes.len() {
            let Some((first, rest)) = next_line(left) else {
                break;
            };
            line = line.saturating_add(1);
            left = rest;
            if text(first) == NUMBERS {
                return numbers_of(size, rest).ok_or(MapFault::Line(line));
            }
            if !self.read_line(text(first), &mut size)? {
                return Err(MapFault::Line(line));
            }
        }
        // The line that the numbers stand behind is missing.
        Err(MapFault::Line(line))
    }

    /// Reads a line of a map of places that isn't the first nor the last. Whether it is one.
    fn read_line(&mut self, line: &'m [u8], size: &mut Option<Size>) -> Result<bool, AllocError> {
        let fields = Fields::of(line);
        match fields.word {
            b"lines" => {
                *size = size_of(fields);
                Ok(size.is_some())
            }
            b"place" => self.read_place(fields),
            b"taken" => self.read_taken(fields),
            _ => Ok(false),
        }
    }

    /// Reads `place NUMBER FUNCTION SOURCE`. Whether the fields are so.
    fn read_place(&mut self, fields: Fields<'m>) -> Result<bool, AllocError> {
        let (function, source) = (fields.second, fields.third);
        match number(fields.first) {
            Some(place) if !function.is_empty() && !source.is_empty() => {
                self.places.insert(place, At::Place { function, source })?;
                Ok(true)
            }
            _ => Ok(false),
        }
    }

    /// Reads `taken CLASS PLACE COUNT`. Whether the fields are so.
    fn read_taken(&mut self, fields: Fields<'m>) -> Result<bool, AllocError> {
        let class = fields.first;
        match (number(fields.second), number(fields.third)) {
            (Some(place), Some(count)) if !class.is_empty() => {
                // The most frequent place of a class stands first.
                if self.taken.get(&class).is_none() {
                    self.taken.insert(class, (place, count))?;
                }
                Ok(true)
            }
            _ => Ok(false),
        }
    }
}

impl Numbers<'_> {
    /// How many lines have a number.
    pub(crate) fn count(self) -> u64 {
        self.count
    }

    /// The number of a line, which so many lines stand before.
    pub(crate) fn number(self, before: usize) -> Option<u64> {
        let start = before.checked_mul(self.width)?;
        let number = self.bytes.get(start..start.checked_add(self.width)?)?;
        Some(of_bytes(number))
    }
}

/// What `lines N bytes W` says.
fn size_of(fields: Fields<'_>) -> Option<Size> {
    let lines = number(fields.first)?;
    match number(fields.third)? {
        bytes @ (2 | 4) if fields.second == b"bytes".as_slice() => Some(Size { lines, bytes }),
        _ => None,
    }
}

/// The numbers of the lines, which are all these bytes.
fn numbers_of(size: Option<Size>, bytes: &[u8]) -> Option<Numbers<'_>> {
    let size = size?;
    if size.lines.checked_mul(size.bytes)? != bytes.len() as u64 {
        return None;
    }
    let width = size.bytes as usize;
    let count = size.lines;
    Some(Numbers {
        bytes,
        width,
        count,
    })
}
