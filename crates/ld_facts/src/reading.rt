//! Reads the facts of a trace.
ghost use Rattle.std.specs.Prelude.{◌≡◌, ℕ, [], Ok, IfOk, MatchOption};
ghost use Rattle.std.specs.Bool.{OnFalse, OnTrue};
ghost use Rattle.ld_trace.specs.Sources.{plain, Fits};
ghost use Rattle.ld_trace.specs.Events.{answer_seen, positions};
ghost use Rattle.ld_trace.specs.First.{IsFirstSaid};
ghost use Rattle.ld_rules.specs.Outcome.{outcome};
ghost use Rattle.ld_rules.specs.declared.outcome.Outcome.TheVariants.{Read, Refused};
ghost use Rattle.ld_facts.specs.Inner.Scan.{AreMany, IsAt, StandsOn, Start};

use crate::known::Facts;
use crate::scan::{Scan, Stop};
use ld_class::Classes;
use ld_rules::{Outcome, TraceFault};
use ld_tables::Uses;
use ld_trace::{
    Event, LineFault, Source, behind_empty, next_event, next_line, next_state_event, read_event,
    text,
};
use std::alloc::{AllocError, Global};

/// The facts of a trace: what became of it and, where it was read to its end, what it shows. A
/// trace with a fault is refused as a whole, and shows nothing of what stood before the fault.
///
/// `AllocError` where a growth of memory was refused, whatever the trace says.
pub fn facts<'a>(alloc: Global, source: Source<'a>) -> Result<Facts<'a>, AllocError>
    requires { Fits (plain source) }
    ensures { IfOk result (λ facts. facts.source ≡ plain source.entry) }
{
    let mut scan = Scan::new(alloc);
    match read_into(&mut scan, source) {
        Ok(Outcome::Read { events }) => {
            let Ok(edges) = scan.locks.edge_facts() else {
                drop(scan);
                return Err(AllocError);
            };
            Ok(Facts {
                source,
                outcome: Outcome::Read { events },
                classes: scan.classes,
                edges,
                usage: scan.uses,
            })
        }
        Ok(Outcome::Refused { line, fault }) => Ok(refused(alloc, scan, source, line, fault)),
        Err(refusal) => {
            drop(scan);
            Err(refusal)
        }
    }
}

/// Reads a trace, and answers what became of it. Where it was read to its end, the scan has what it
/// shows on top of what it had. Else what the scan had stands first in it, and [`Scan::undo`] takes
/// back what follows.
///
/// `AllocError` where a growth of memory was refused, whatever the trace says.
pub fn read_into<'a>(scan: &mut Scan<'a>, source: Source<'a>) -> Result<Outcome, AllocError>
    requires fits { Fits (plain source) }
    requires many { AreMany scan.old }
    ensures outcome { IfOk result (λ what. (start : Start) → IsAt start [] scan.old →
        what ≡ outcome (plain source.entry)) }
    ensures read { (events : ℕ) → result ≡ Ok (Read events) →
        (start : Start) → IsAt start [] scan.old →
        IsAt start (positions (plain source.entry)) scan.new }
    ensures first { StandsOn scan.old scan.new }
{
    let mut rest = source.bytes;
    let mut line = source.first_line;
    let mut events = 0;
    let mut other = Other {
        said: Ok(None),
        rest,
    };
    while let Some((said, others)) = next_said(rest, &mut other) {
        match said {
            Ok(None) => {}
            Ok(Some(event)) => match scan.step(event, line) {
                Ok(()) => events += 1,
                Err(Stop::Memory) => return Err(AllocError),
                Err(Stop::Fault(fault)) => return Ok(Outcome::Refused { line, fault }),
            },
            Err(fault) => {
                let fault = TraceFault::from(fault);
                return Ok(Outcome::Refused { line, fault });
            }
        }
        rest = others;
        line += 1;
    }
    Ok(Outcome::Read { events })
}

/// What the first line says, or its fault, and what follows the line; `None` where there is no byte. What `other` has
/// says nothing: lines are read into it that aren't events of locks.
fn next_said<'a>(
    bytes: &'a [u8],
    other: &mut Other<'a>,
) -> Option<(Result<Option<Event<'a>>, LineFault>, &'a [u8])>
    ensures { MatchOption result (bytes.entry.now ≡ []) (λ cut.
        IsFirstSaid bytes.entry.now (answer_seen cut.0) cut.1.now) }
{
    match next_event(bytes) {
        Some((event, rest)) => Some((Ok(Some(event)), rest)),
        None => {
            if !other.read(bytes) {
                return None;
            }
            Some((other.said, other.rest))
        }
    }
}

/// What a line says, or its fault, and what follows the line.
// Lines that aren't read in one pass as events of locks are read into one place for all of a trace: each place of its
// own would be cleared for each line.
#[derive(Clone, Copy)]
struct Other<'a> {
    said: Result<Option<Event<'a>>, LineFault>,
    rest: &'a [u8],
}

impl<'a> Other<'a> {
    /// Reads the first line; `false` where there is no byte.
    #[inline(never)]
    fn read(&mut self, bytes: &'a [u8]) -> bool
        ensures said { OnTrue result
            (IsFirstSaid bytes.entry.now (answer_seen self.new.said) self.new.rest.now) }
        ensures none { OnFalse result (bytes.entry.now ≡ []) }
    {
        match next_state_event(bytes) {
            Some((event, rest)) => {
                self.said = Ok(Some(event));
                self.rest = rest;
                true
            }
            None => self.read_line(bytes),
        }
    }

    /// The same, whatever the line says.
    // Apart from the events of a state, so that what is kept here isn't cleared for each of those.
    #[inline(never)]
    fn read_line(&mut self, bytes: &'a [u8]) -> bool
        ensures said { OnTrue result
            (IsFirstSaid bytes.entry.now (answer_seen self.new.said) self.new.rest.now) }
        ensures none { OnFalse result (bytes.entry.now ≡ []) }
    {
        if let Some(rest) = behind_empty(bytes) {
            self.said = Ok(None);
            self.rest = rest;
            return true;
        }
        let Some((line, rest)) = next_line(bytes) else {
            return false;
        };
        self.said = read_event(text(line));
        self.rest = rest;
        true
    }
}

/// The facts of a trace with a fault. They have nothing of what the scan found before it.
fn refused<'a>(
    alloc: Global,
    scan: Scan<'a>,
    source: Source<'a>,
    line: u64,
    fault: TraceFault,
) -> Facts<'a>
    requires outcome { outcome (plain source) ≡ Refused line fault }
    requires fits { Fits (plain source) }
    ensures { result.source ≡ plain source.entry }
{
    drop(scan);
    Facts {
        source,
        outcome: Outcome::Refused { line, fault },
        classes: Classes::new(alloc),
        edges: Vec::new(alloc),
        usage: Uses::new(alloc),
    }
}
