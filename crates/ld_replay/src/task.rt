//! What one task has open, one event after another.
ghost use Rattle.std.specs.Prelude.{◌≡◌, ◌<◌, ◌+◌, ◌-◌, [], ◌∷◌, ◌++◌, false, length, map, remove, IfNone, IfOk, IfSome, List, None, OnOk};
ghost use Rattle.std.specs.List.{last_or, list_any};
ghost use Rattle.ld_trace.specs.Events.{Position, plain_event, plain_lock};
ghost use Rattle.ld_rules.specs.Frames.{task_of};
ghost use Rattle.ld_rules.specs.Held.{same_frame, same_lock};
ghost use Rattle.ld_rules.specs.Inner.Scanned.{remove_last};
ghost use Rattle.ld_replay.specs.HeldAt.{IsHeldAt, plain_hold};
ghost use Rattle.ld_replay.specs.Inner.Task.{IsAfter, acquired, entered, exited, frame_now, has_key, inner_handler, is_under, key_now, stepped};

use crate::flags::Flags;
use crate::hold::{Handler, HeldAt, Hold};
use ld_trace::{Event, Lock, State};
use std::alloc::{AllocError, Global};
use std::marker::Model;

/// What one task of a trace has open: the handlers that it is in, and the locks that it holds.
#[derive(Drop)]
pub struct Task<'a> {
    name: &'a [u8],
    /// The outermost first.
    handlers: Vec<Handler>,
    /// In order of acquisition, over all frames.
    holds: Vec<Hold<'a>>,
    /// Those of the frame that it is in.
    flags: Flags,
}

impl<'a> Model for Task<'a> {
    ghost use Rattle.std.specs.Prelude.{map};
    ghost use Rattle.ld_replay.specs.Inner.Task.{PlainTask};

    ghost Value = { PlainTask };

    ghost use Rattle.ld_replay.specs.HeldAt.{plain_hold};
    ghost use Rattle.ld_replay.specs.Inner.Task.{inner_handler};

    ghost view = { λ t. record {
      name = t.name.now;
      handlers = map inner_handler t.handlers.items;
      holds = map (plain_hold t.name.now) t.holds.items;
    } };
}

impl<'a> Task<'a> {
    /// The task of this name before its trace's first event.
    pub(crate) fn new(alloc: Global, name: &'a [u8]) -> Task<'a>
        ensures { result ≡ record { name = name.entry.now; handlers = []; holds = [] } }
    {
        Task {
            name,
            handlers: Vec::new(alloc),
            holds: Vec::new(alloc),
            flags: Flags::at_start(),
        }
    }

    /// The same once more.
    pub(crate) fn copied(&self, alloc: Global) -> Result<Task<'a>, AllocError>
        ensures { IfOk result (λ task. task ≡ self.now) }
    {
        Ok(Task {
            name: self.name,
            handlers: self.handlers.to_vec(alloc)?,
            holds: self.holds.to_vec(alloc)?,
            flags: self.flags,
        })
    }

    /// The locks that it holds, over all its frames, in order of acquisition.
    pub fn holds(&self) -> &[Hold<'a>]
        ensures { map (plain_hold self.now.name) result.now ≡ self.now.holds }
    {
        &self.holds
    }

    /// The handlers that it is in, the outermost first.
    pub fn handlers(&self) -> &[Handler]
        ensures { map inner_handler result.now ≡ self.now.handlers }
    {
        &self.handlers
    }

    /// Its flags after this event of its own, at this line of the stream.
    pub fn flags_after(&self, event: &Event<'_>, line: u64) -> Flags {
        let outer = match self.handlers.last() {
            Some(handler) => Some(handler.outer),
            None => None,
        };
        self.flags.after(event, line, outer)
    }

    /// The frame that it is in.
    fn frame(&self) -> Option<u64>
        ensures { result ≡ frame_now self.now }
    {
        innermost(&self.handlers)
    }

    /// The trace's next event, with so many events before it, at this line.
    pub(crate) fn step(&mut self, event: Event<'a>, place: u64, line: u64) -> Result<(), AllocError>
        ensures next { OnOk result (self.new ≡ stepped self.old (plain_event event.entry) place line) }
        ensures name { self.new.name ≡ self.old.name }
    {
        if self.name != task_of(&event) {
            return Ok(());
        }
        let flags = self.flags_after(&event, line);
        match event {
            Event::Acquire { lock, .. } | Event::Try { lock, .. } => self.acquire(lock, 0, line)?,
            Event::Nested { lock, sub, .. } => self.acquire(lock, sub, line)?,
            Event::Release { lock, .. } => self.release(lock),
            Event::Enter { state, .. } => self.enter(state, place, line)?,
            Event::Exit { .. } => self.exit(),
            Event::Enable { .. } | Event::Disable { .. } | Event::Begin { .. } => {}
        }
        self.flags = flags;
        Ok(())
    }

    fn enter(&mut self, state: State, place: u64, line: u64) -> Result<(), AllocError>
        ensures next { OnOk result (self.new ≡ entered self.old state place line) }
        ensures name { self.new.name ≡ self.old.name }
    {
        let outer = self.flags;
        self.handlers.push(Handler {
            state,
            line,
            place,
            outer,
        })?;
        Ok(())
    }

    fn exit(&mut self)
        ensures { self.new ≡ exited self.old }
    {
        self.handlers.pop();
    }

    fn acquire(&mut self, lock: Lock<'a>, sub: u8, line: u64) -> Result<(), AllocError>
        ensures next { OnOk result (self.new ≡ acquired self.old (plain_lock lock.entry) sub line) }
        ensures name { self.new.name ≡ self.old.name }
    {
        let frame = self.frame();
        self.holds.push(Hold {
            lock,
            sub,
            line,
            frame,
        })?;
        Ok(())
    }

    fn release(&mut self, lock: Lock<'_>)
        ensures { self.new ≡ record self.old {
          holds = remove_last (has_key (key_now self.old (plain_lock lock.entry))) self.old.holds;
        } }
    {
        let frame = self.frame();
        if let Some(place) = latest(&self.holds, frame, lock) {
            self.holds.remove(place);
        }
    }
}

impl<'a> Task<'a> {
    /// What it has open at this event of its own, of the locks those in the frame that it is in.
    pub(crate) fn at(mut self, event: Event<'a>) -> HeldAt<'a>
        requires { self.name ≡ task_of (plain_event event) }
        ensures event { result.event ≡ event.entry }
        ensures open { (past : List Position) → IsAfter past self.entry → IsHeldAt past result }
    {
        let frame = self.frame();
        self.holds.retain(|hold| is_same_frame(frame, hold.frame));
        HeldAt {
            event,
            holds: self.holds,
            handlers: self.handlers,
        }
    }
}

/// The frame of the last of some handlers; `None` where there is none.
fn innermost(handlers: &[Handler]) -> Option<u64>
    ensures { result ≡ last_or None (map (λ handler. handler.place) handlers.now) }
{
    match handlers {
        [.., last] => Some(last.place),
        [] => None,
    }
}

/// The place of the latest acquisition of the lock in this frame.
fn latest(holds: &[Hold<'_>], frame: Option<u64>, lock: Lock<'_>) -> Option<usize>
    ensures none { IfNone result (list_any (is_under frame (plain_lock lock.entry)) holds.now ≡ false) }
    ensures place { IfSome result (λ i. i < length holds.now) }
    ensures last { IfSome result (λ i. remove holds.now i
        ≡ remove_last (is_under frame (plain_lock lock.entry)) holds.now) }
{
    let mut place = holds.len();
    while place > 0 {
        place -= 1;
        if is_under(frame, lock, holds[place]) {
            return Some(place);
        }
    }
    None
}

/// Whether a lock was acquired in this frame, and is this one.
fn is_under(frame: Option<u64>, lock: Lock<'_>, hold: Hold<'_>) -> bool
    ensures { result ≡ is_under frame (plain_lock lock.entry) hold.entry }
{
    is_same_frame(frame, hold.frame) && is_same(lock, hold.lock)
}

fn is_same_frame(a: Option<u64>, b: Option<u64>) -> bool
    ensures { result ≡ same_frame a b }
{
    match (a, b) {
        (None, None) => true,
        (Some(a), Some(b)) => a == b,
        _ => false,
    }
}

/// The task that an event is of.
pub fn task_of<'a>(event: &Event<'a>) -> &'a [u8]
    ensures { result.now ≡ task_of (plain_event event.now) }
{
    match *event {
        Event::Acquire { task, .. }
        | Event::Nested { task, .. }
        | Event::Try { task, .. }
        | Event::Release { task, .. }
        | Event::Enter { task, .. }
        | Event::Exit { task, .. }
        | Event::Enable { task, .. }
        | Event::Disable { task, .. }
        | Event::Begin { task, .. } => task,
    }
}

fn is_same(a: Lock<'_>, b: Lock<'_>) -> bool
    ensures { result ≡ same_lock (plain_lock a.entry) (plain_lock b.entry) }
{
    if a.class != b.class {
        return false;
    }
    match (a.instance, b.instance) {
        (None, None) => true,
        (Some(a), Some(b)) => a == b,
        _ => false,
    }
}
