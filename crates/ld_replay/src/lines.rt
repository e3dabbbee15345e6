//! The lines of a source, by their numbers.
ghost use Rattle.std.specs.Prelude.{◌≡◌, ◌≤◌, ◌∷◌, [], All, IfOk, MatchOption, map, option_map};
ghost use Rattle.ld_trace.specs.Events.{answer_seen, plain_event};
ghost use Rattle.ld_trace.specs.Lines.{lines};
ghost use Rattle.ld_trace.specs.First.{IsFirstSaid};
ghost use Rattle.ld_trace.specs.Sources.{PlainSource, plain};
ghost use Rattle.ld_replay.specs.Before.{IsLine};
ghost use Rattle.ld_replay.specs.Inner.Replay.{IsReading, first_said};

use ld_trace::{
    Event, LineFault, Source, next_event, next_line, next_state_event, read_event, text,
};
use std::alloc::{AllocError, Global};

/// What is left of a source that is read up to a line.
#[derive(Drop)]
struct Reading<'a> {
    rest: &'a [u8],
    /// The number of its first line in the stream.
    number: u64,
}

/// The lines of the source with these numbers in the stream, each beside its number, and with the LF that
/// ends it; `None` where there is none. The numbers may have any order: where they rise, the source is read
/// once, up to the last of them.
///
/// # Errors
///
/// Where a growth of memory was refused.
pub fn lines_at<'a>(
    alloc: Global,
    source: Source<'a>,
    numbers: &[u64],
) -> Result<Vec<(u64, Option<&'a [u8]>)>, AllocError>
    ensures numbers { IfOk result (λ found. map (λ one. one.0) found.items ≡ numbers.now) }
    ensures lines { IfOk result (λ found.
        All (λ one. IsLine (plain source.entry) one.0 one.1) found.items) }
{
    let mut reading = Reading::new(source);
    let mut found = Vec::with_capacity(alloc, numbers.len())?;
    for number in numbers {
        let line = line_of(source, &mut reading, *number);
        found.push((*number, line))?;
    }
    Ok(found)
}

/// The line with this number, if there is one. Where it was passed, the source is read anew.
fn line_of<'a>(source: Source<'a>, reading: &mut Reading<'a>, number: u64) -> Option<&'a [u8]>
    requires { IsReading (plain source) reading.old }
    ensures line { IsLine (plain source.entry) number result }
    ensures reading { IsReading (plain source.entry) reading.new }
{
    if number < source.first_line {
        return None;
    }
    if number < reading.number {
        *reading = Reading::new(source);
        return reading.line(number);
    }
    reading.line(number)
}

impl<'a> Reading<'a> {
    /// At the first line of the source.
    fn new(source: Source<'a>) -> Reading<'a>
        ensures first { result.number ≡ source.entry.first_line }
        ensures reading { IsReading (plain source.entry) result }
    {
        Reading {
            rest: source.bytes,
            number: source.first_line,
        }
    }

    /// The line with this number, if there is one. It isn't one that was passed.
    fn line(&mut self, number: u64) -> Option<&'a [u8]>
        requires { self.old.number ≤ number }
        ensures line { (source : PlainSource) → IsReading source self.old → IsLine source number result }
        ensures reading { (source : PlainSource) → IsReading source self.old
            → IsReading source self.new }
    {
        while self.number < number {
            let Some((_first, others)) = next_line(self.rest) else {
                return None;
            };
            self.rest = others;
            self.number += 1;
        }
        match next_line(self.rest) {
            Some((line, _rest)) => Some(line),
            None => None,
        }
    }
}

/// The event of the first line, if it says one.
pub(crate) fn first_event(bytes: &[u8]) -> Option<Event<'_>>
    ensures { option_map plain_event result ≡ first_said (lines bytes.now) }
{
    match next_said(bytes) {
        Some((Ok(event), _rest)) => event,
        Some((Err(_), _rest)) => None,
        None => None,
    }
}

/// What the first line says, or its fault, and what follows the line; `None` where there is no byte.
pub(crate) fn next_said(bytes: &[u8]) -> Option<(Result<Option<Event<'_>>, LineFault>, &[u8])>
    ensures { MatchOption result (bytes.now ≡ []) (λ cut.
        IsFirstSaid bytes.now (answer_seen cut.0) cut.1.now) }
{
    if let Some((event, rest)) = next_event(bytes) {
        return Some((Ok(Some(event)), rest));
    }
    if let Some((event, others)) = next_state_event(bytes) {
        return Some((Ok(Some(event)), others));
    }
    let (line, rest) = next_line(bytes)?;
    Some((read_event(text(line)), rest))
}
