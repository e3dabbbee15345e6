//! Where traces show a dependency.
ghost use Rattle.std.specs.Prelude.{◌≡◌, All, AllPairs, IfOk, length, map, filter_map, option_map};
ghost use Rattle.ld_trace.specs.Lines.{lines};
ghost use Rattle.ld_trace.specs.Sources.{Fits, plain};
ghost use Rattle.ld_facts.specs.Facts.{IsKnown};
ghost use Rattle.ld_rules.specs.Dependency.{least_line, same_dependency};
ghost use Rattle.ld_rules.specs.Union.{dependencies_of};
ghost use Rattle.ld_occurrences.specs.Named.{plain_dependency};
ghost use Rattle.ld_occurrences.specs.Occurrences.{AreOccurrences, occurrence_in, plain_occurrence, traces_of};

use crate::named::NamedDependency;
use ld_facts::{Facts, facts};
use ld_rules::Listed;
use ld_trace::{Source, next_line};
use std::alloc::{AllocError, Global};

/// A trace that shows a dependency.
#[derive(Clone, Copy, Debug, PartialEq, Eq)]
pub struct Occurrence<'a> {
    /// The trace.
    pub source: Source<'a>,
    /// How many lines it has behind its header.
    pub lines: u64,
    /// The number, in the stream, of the first of these lines at which the dependency stands.
    pub first: u64,
}

/// The traces of these that show a dependency: the one with the fewest lines first, and of equal ones that which comes
/// first in the stream. A refused trace shows nothing. They are scanned one after another, and of each one nothing is
/// kept but its row.
///
/// # Errors
///
/// `AllocError` where a growth of memory was refused.
pub fn occurrences<'a>(
    alloc: Global,
    traces: &[Listed<'a>],
    what: NamedDependency<'_>,
) -> Result<Vec<Occurrence<'a>>, AllocError>
    requires { All Fits (traces_of traces.now) }
    ensures { IfOk result (λ rows.
        AreOccurrences (traces_of traces.now) (plain_dependency what.entry) rows.items) }
{
    let mut rows = in_turn(alloc, traces, what)?;
    rows.sort_unstable_by_key(|row| (row.lines, row.source.number));
    Ok(rows)
}

/// The same, in the order in which the traces are given.
fn in_turn<'a>(
    alloc: Global,
    traces: &[Listed<'a>],
    what: NamedDependency<'_>,
) -> Result<Vec<Occurrence<'a>>, AllocError>
    requires { All Fits (traces_of traces.now) }
    ensures { IfOk result (λ rows. map plain_occurrence rows.items
        ≡ filter_map (occurrence_in (plain_dependency what.entry)) (traces_of traces.now)) }
{
    let mut rows = Vec::new(alloc);
    for trace in traces {
        if let Some(row) = occurrence_in(alloc, trace.source, what)? {
            rows.push(row)?;
        }
    }
    Ok(rows)
}

/// What a trace shows of a dependency.
fn occurrence_in<'a>(
    alloc: Global,
    source: Source<'a>,
    what: NamedDependency<'_>,
) -> Result<Option<Occurrence<'a>>, AllocError>
    requires { Fits (plain source) }
    ensures { IfOk result (λ row. option_map plain_occurrence row
        ≡ occurrence_in (plain_dependency what.entry) (plain source.entry)) }
{
    let facts = facts(alloc, source)?;
    let row = occurrence_of(&facts, what);
    drop(facts);
    Ok(row)
}

/// What the trace that these facts are of shows of a dependency.
fn occurrence_of<'a>(facts: &Facts<'a>, what: NamedDependency<'_>) -> Option<Occurrence<'a>>
    ensures { option_map plain_occurrence result
        ≡ occurrence_in (plain_dependency what.entry) facts.now.source }
{
    let source = facts.source();
    match first_line(facts, what) {
        Some(first) => Some(Occurrence {
            source,
            lines: line_count(source.bytes),
            first,
        }),
        None => None,
    }
}

/// The least line at which a dependency stands, of the trace that these facts are of.
fn first_line(facts: &Facts<'_>, what: NamedDependency<'_>) -> Option<u64>
    requires { IsKnown facts.now }
    ensures { result ≡ least_line same_dependency (dependencies_of facts.now.source) (plain_dependency what.entry) }
{
    let classes = facts.classes();
    let from = classes.find(what.from)?;
    let to = classes.find(what.to)?;
    let edges = facts.edges();
    for edge in edges {
        if edge.from == from && edge.to == to {
            return Some(edge.line);
        }
    }
    None
}

/// How many lines the bytes have.
fn line_count(bytes: &[u8]) -> u64
    ensures { result ≡ length (lines bytes.now) }
{
    let mut rest = bytes;
    let mut count = 0;
    while let Some((_, others)) = next_line(rest) {
        count += 1;
        rest = others;
    }
    count
}
