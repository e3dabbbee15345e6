//! What stands at some lines of some traces, looked up in one pass over each trace.

use ld_overview::Witness;
use ld_replay::{Before, Flag, before_lines, lines_at};
use ld_trace::{Source, text};
use std::alloc::{AllocError, Global};

/// What the tasks of some lines have open there.
#[derive(Drop)]
pub struct Sightings<'a> {
    /// In the order of the lines.
    found: Vec<(Witness, Option<Before<'a>>)>,
}

/// What some lines say.
#[derive(Drop)]
pub struct Texts<'a> {
    /// In the order of the lines.
    found: Vec<(Witness, &'a [u8])>,
}

/// Lines of one trace.
#[derive(Drop)]
struct Wanted<'a> {
    /// The trace's number.
    number: u64,
    source: Source<'a>,
    /// They rise.
    lines: Vec<u64>,
}

impl<'a> Sightings<'a> {
    /// Those of these lines, which may have any order. Each trace is the source at the place of its number.
    pub fn of(
        alloc: Global,
        sources: &[Source<'a>],
        wanted: Vec<Witness>,
    ) -> Result<Sightings<'a>, AllocError> {
        let mut found = Vec::new(alloc);
        for trace in &by_traces(alloc, sources, wanted)? {
            for (line, before) in before_lines(alloc, trace.source, &trace.lines)? {
                let number = trace.number;
                found.push((Witness { number, line }, before))?;
            }
        }
        Ok(Sightings { found })
    }

    /// That of this line.
    pub fn at(&self, at: Witness) -> Option<&Before<'a>> {
        match self.found.binary_search_by_key(&at, |one| one.0) {
            Ok(place) => match self.found.get(place) {
                Some((_, before)) => before.as_ref(),
                None => None,
            },
            Err(_) => None,
        }
    }

    /// The lines that may be told of these: their own, and those at which something was opened or put on.
    pub fn lines(&self, alloc: Global) -> Result<Vec<Witness>, AllocError> {
        let mut wanted = Vec::new(alloc);
        for (at, before) in &self.found {
            wanted.push(*at)?;
            if let Some(before) = before {
                add_lines(&mut wanted, at.number, before)?;
            }
        }
        Ok(wanted)
    }
}

impl<'a> Texts<'a> {
    /// Those of these lines, which may have any order. Each trace is the source at the place of its number.
    pub fn of(
        alloc: Global,
        sources: &[Source<'a>],
        wanted: Vec<Witness>,
    ) -> Result<Texts<'a>, AllocError> {
        let mut found = Vec::new(alloc);
        for trace in &by_traces(alloc, sources, wanted)? {
            for (line, said) in lines_at(alloc, trace.source, &trace.lines)? {
                let number = trace.number;
                found.push((Witness { number, line }, text(said.unwrap_or(&[]))))?;
            }
        }
        Ok(Texts { found })
    }

    /// What this line says, without its end.
    pub fn at(&self, at: Witness) -> &'a [u8] {
        match self.found.binary_search_by_key(&at, |one| one.0) {
            Ok(place) => match self.found.get(place) {
                Some((_, said)) => said,
                None => &[],
            },
            Err(_) => &[],
        }
    }
}

/// Adds the lines at which what is open there was opened, and its flags were put on.
fn add_lines(
    wanted: &mut Vec<Witness>,
    number: u64,
    before: &Before<'_>,
) -> Result<(), AllocError> {
    for hold in before.task.holds() {
        let line = hold.line;
        wanted.push(Witness { number, line })?;
    }
    for handler in before.task.handlers() {
        let line = handler.line;
        wanted.push(Witness { number, line })?;
    }
    let flags = before.flags();
    for flag in [flags.hard, flags.soft] {
        if let Flag::Since(line) = flag {
            wanted.push(Witness { number, line })?;
        }
    }
    Ok(())
}

/// These lines, each once, by their traces.
fn by_traces<'a>(
    alloc: Global,
    sources: &[Source<'a>],
    wanted: Vec<Witness>,
) -> Result<Vec<Wanted<'a>>, AllocError> {
    let mut wanted = wanted;
    wanted.sort_unstable();
    wanted.dedup();
    let mut traces = Vec::new(alloc);
    for group in wanted.chunk_by(|one, other| one.number == other.number) {
        let mut lines = Vec::with_capacity(alloc, group.len())?;
        for at in group {
            lines.push(at.line)?;
        }
        let Some(first) = group.first() else {
            continue;
        };
        if let Some(source) = sources.get(first.number as usize) {
            traces.push(Wanted {
                number: first.number,
                source: *source,
                lines,
            })?;
        }
    }
    Ok(traces)
}
