//! Where a line of some files stands, once they are one stream.
ghost use Rattle.std.specs.Prelude.{◌≡◌, ◌≤◌, ◌++◌, ◌∷◌, [], MatchOption, OnErr, OnOk, false, length, nat_lt, true};
ghost use Rattle.std.specs.List.Sorted.{IsPartitionPoint, IsPartitionedBy};
ghost use Rattle.ld_places.specs.Places.{IsPlace, PlainPlace, plain_place};

use std::alloc::{AllocError, Global};
use std::marker::Model;

/// A line of a file.
#[derive(Clone, Copy, Debug, PartialEq, Eq)]
pub struct Place<'a> {
    /// The name of the file.
    pub file: &'a str,
    /// The line, counted from 1 in this file.
    pub line: u64,
}

/// A file that others stand before.
#[derive(Clone, Copy, Debug)]
struct Part<'a> {
    /// Its name.
    file: &'a str,
    /// How many lines it has.
    lines: u64,
    /// How many lines those before it have.
    before: u64,
}

/// Files that are one stream, one after another, seen as the list of their names with how many lines each
/// has.
#[derive(Drop)]
pub struct Places<'a> {
    parts: Vec<Part<'a>>,
    /// How many lines they have together.
    lines: u64,
}

impl<'a> Model for Places<'a> {
    ghost use Rattle.std.specs.Prelude.{List};
    ghost use Rattle.ld_places.specs.Places.{ArePlaces, PlainFile, files_of};

    ghost Value = { List PlainFile };

    ghost view = { λ p. files_of p.parts.items };

    ghost invariant = { λ p. ArePlaces p.parts.items p.lines };
}

impl<'a> Places<'a> {
    /// No file. Takes no memory.
    pub fn new(alloc: Global) -> Places<'a>
        ensures { result ≡ [] }
    {
        Places {
            parts: Vec::new(alloc),
            lines: 0,
        }
    }

    /// Puts a file of so many lines behind the others.
    ///
    /// # Errors
    ///
    /// `AllocError` where a growth of memory was refused, or where there are 2^64 lines, more than memory has
    /// bytes. Nothing has changed then.
    pub fn push(&mut self, file: &'a str, lines: u64) -> Result<(), AllocError>
        ensures added { OnOk result (self.new
            ≡ self.old ++ record { name = file.entry.now; lines = lines } ∷ []) }
        ensures refused { OnErr result (self.new ≡ self.old) }
    {
        let before = self.lines;
        let Some(together) = before.checked_add(lines) else {
            return Err(AllocError);
        };
        self.parts.push(Part {
            file,
            lines,
            before,
        })?;
        self.lines = together;
        Ok(())
    }

    /// How many files there are. Takes no memory.
    pub fn count(&self) -> u64
        ensures { result ≡ length self.now }
    {
        self.parts.len() as u64
    }

    /// Where this line stands, counted from 1 over all files, or `None` where no file has it. Takes no memory.
    pub fn place(&self, line: u64) -> Option<Place<'a>>
        ensures { MatchOption result ((place : PlainPlace) → ¬ IsPlace self.now line place)
            (λ place. IsPlace self.now line (plain_place place)) }
    {
        // A file that has the line is the last one with fewer lines before it.
        let reached = reached(&self.parts, line);
        if reached == 0 {
            return None;
        }
        let part = self.parts[reached - 1];
        let own = line - part.before;
        if own > part.lines {
            return None;
        }
        Some(Place {
            file: part.file,
            line: own,
        })
    }
}

/// How many of these files have fewer lines before them than the line's number: those that it isn't before.
fn reached(parts: &[Part<'_>], line: u64) -> usize
    requires { IsPartitionedBy (λ part. nat_lt part.before line) parts.now }
    ensures bound { result ≤ length parts.now }
    ensures point { IsPartitionPoint (λ part. nat_lt part.before line ≡ true)
        (λ part. nat_lt part.before line ≡ false) parts.now result }
{
    parts.partition_point(|part| part.before < line)
}
