//! What the tasks of some lines have open there.
ghost use Rattle.std.specs.Prelude.{◌≡◌, ◌≤◌, ◌<◌, ◌+◌, ◌^◌, ◌⊎◌, ◌∷◌, [], All, IfOk, IfSome, MatchOption, OnOk, map};
ghost use Rattle.ld_trace.specs.Events.{answer_seen, plain_event, positions};
ghost use Rattle.ld_trace.specs.First.{IsFirstSaid};
ghost use Rattle.ld_trace.specs.Sources.{PlainSource, plain};
ghost use Rattle.ld_replay.specs.HeldAt.{IsHeldAt, before_line, events_at};
ghost use Rattle.ld_replay.specs.Before.{IsBefore};
ghost use Rattle.ld_replay.specs.Inner.Replay.{IsReplayed};

use crate::before::Before;
use crate::hold::HeldAt;
use crate::lines::{first_event, next_said};
use crate::task::task_of;
use crate::tasks::Tasks;
use ld_trace::{Event, LineFault, Source};
use std::alloc::{AllocError, Global};

/// A source that is replayed up to a line.
#[derive(Drop)]
struct Replay<'a> {
    /// The lines from that one on.
    rest: &'a [u8],
    /// The number of that line in the stream.
    number: u64,
    /// How many events stand before it.
    place: u64,
    /// What the tasks have open just before it.
    tasks: Tasks<'a>,
    ghost few: { place ≤ number },
}

/// What the task of a line of the source holds there, just before the line's event, in the frame that it
/// is in, with the line of each acquisition. `None` where no line of that number in the stream says an event.
///
/// Lines that say no event are passed over, also where they have a fault.
///
/// # Errors
///
/// Where a growth of memory was refused.
pub fn held_at<'a>(
    alloc: Global,
    source: Source<'a>,
    line: u64,
) -> Result<Option<HeldAt<'a>>, AllocError>
    ensures event { IfOk result (λ found. MatchOption found
        (events_at (positions (plain source.entry)) line ≡ []) (λ at.
        events_at (positions (plain source.entry)) line ≡ plain_event at.event ∷ [])) }
    ensures held { IfOk result (λ found. IfSome found (λ at.
        IsHeldAt (before_line (positions (plain source.entry)) line) at)) }
{
    let mut replay = Replay::new(alloc, source);
    match before_of(alloc, source, &mut replay, line)? {
        Some(before) => Ok(Some(before.held(alloc)?)),
        None => Ok(None),
    }
}

/// What the tasks of these lines of the source have open, each beside the line, just before the line's event;
/// `None` where no event stands at it. The lines may have any order: where they rise, the source is read once,
/// up to the last of them.
///
/// # Errors
///
/// Where a growth of memory was refused.
pub fn before_lines<'a>(
    alloc: Global,
    source: Source<'a>,
    lines: &[u64],
) -> Result<Vec<(u64, Option<Before<'a>>)>, AllocError>
    ensures lines { IfOk result (λ all. map (λ one. one.0) all.items ≡ lines.now) }
    ensures before { IfOk result (λ all.
        All (λ one. IsBefore (plain source.entry) one.0 one.1) all.items) }
{
    let mut replay = Replay::new(alloc, source);
    let mut all = Vec::with_capacity(alloc, lines.len())?;
    for line in lines {
        let before = before_of(alloc, source, &mut replay, *line)?;
        all.push((*line, before))?;
    }
    Ok(all)
}

/// What the task of this line has open there; `None` where no event stands there. Where it was passed, the
/// source is replayed anew.
fn before_of<'a>(
    alloc: Global,
    source: Source<'a>,
    replay: &mut Replay<'a>,
    line: u64,
) -> Result<Option<Before<'a>>, AllocError>
    requires { IsReplayed (plain source) replay.old.number replay.old.rest.now replay.old.place replay.old.tasks }
    ensures before { IfOk result (λ found. IsBefore (plain source.entry) line found) }
    ensures replay { OnOk result (IsReplayed (plain source.entry) replay.new.number replay.new.rest.now replay.new.place replay.new.tasks) }
{
    if line < source.first_line {
        return Ok(None);
    }
    if line < replay.number {
        *replay = Replay::new(alloc, source);
        return replay.find(alloc, line);
    }
    replay.find(alloc, line)
}

impl<'a> Replay<'a> {
    /// At the first line of the source.
    fn new(alloc: Global, source: Source<'a>) -> Replay<'a>
        ensures first { result.number ≡ source.entry.first_line }
        ensures replay { IsReplayed (plain source.entry) result.number result.rest.now result.place result.tasks }
    {
        Replay {
            rest: source.bytes,
            number: source.first_line,
            place: 0,
            tasks: Tasks::new(alloc),
        }
    }

    /// What the task of this line has open there; `None` where no event stands there. It isn't a line that
    /// was passed.
    fn find(&mut self, alloc: Global, line: u64) -> Result<Option<Before<'a>>, AllocError>
        requires { self.old.number ≤ line }
        ensures before { (source : PlainSource) → IsReplayed source self.old.number self.old.rest.now self.old.place self.old.tasks
            → IfOk result (λ found. IsBefore source line found) }
        ensures replay { (source : PlainSource) → IsReplayed source self.old.number self.old.rest.now self.old.place self.old.tasks
            → OnOk result (IsReplayed source self.new.number self.new.rest.now self.new.place self.new.tasks) }
    {
        self.go_to(alloc, line)?;
        let Some(event) = first_event(self.rest) else {
            return Ok(None);
        };
        let task = self.tasks.task(alloc, task_of(&event))?;
        Ok(Some(Before { line, event, task }))
    }

    /// Replays up to this line, or to the end.
    fn go_to(&mut self, alloc: Global, line: u64) -> Result<(), AllocError>
        requires { self.old.number ≤ line }
        ensures bound { OnOk result (self.new.number ≤ line) }
        ensures reached { OnOk result ((self.new.number ≡ line) ⊎ (self.new.rest.now ≡ [])) }
        ensures replay { (source : PlainSource) → IsReplayed source self.old.number self.old.rest.now self.old.place self.old.tasks
            → OnOk result (IsReplayed source self.new.number self.new.rest.now self.new.place self.new.tasks) }
    {
        while self.number < line {
            let Some((said, others)) = next_said(self.rest) else {
                return Ok(());
            };
            self.pass(alloc, said, others)?;
        }
        Ok(())
    }

    /// Passes the first line, which says this, and which these bytes follow.
    fn pass(
        &mut self,
        alloc: Global,
        said: Result<Option<Event<'a>>, LineFault>,
        others: &'a [u8],
    ) -> Result<(), AllocError>
        requires { self.old.number + 1 < 2 ^ 64 }
        ensures number { OnOk result (self.new.number ≡ self.old.number + 1) }
        ensures rest { OnOk result (self.new.rest.now ≡ others.entry.now) }
        ensures replay { (source : PlainSource) → IsFirstSaid self.old.rest.now (answer_seen said.entry) others.entry.now
            → IsReplayed source self.old.number self.old.rest.now self.old.place self.old.tasks
            → OnOk result (IsReplayed source self.new.number self.new.rest.now self.new.place self.new.tasks) }
    {
        match said {
            Ok(Some(event)) => {
                self.tasks.step(alloc, event, self.place, self.number)?;
                self.place += 1;
                self.number += 1;
                self.rest = others;
                Ok(())
            }
            Ok(None) => {
                self.number += 1;
                self.rest = others;
                Ok(())
            }
            Err(_) => {
                self.number += 1;
                self.rest = others;
                Ok(())
            }
        }
    }
}
