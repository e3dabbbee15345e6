//! What one task is in and holds, by the lines of its trace that say so.
ghost use Rattle.std.specs.Prelude.{◌≡◌, ◌<◌, ◌++◌, ◌∷◌, [], ℕ, List, Some, Ok, IfNone, IfSome, OnOk, length, map, remove, false};
ghost use Rattle.std.specs.List.{list_any};
ghost use Rattle.std.specs.Option.{option_map, option_to_list};
ghost use Rattle.ld_trace.specs.Events.{plain_event, plain_lock, said_by};
ghost use Rattle.ld_trace.specs.Lines.{lines, text_of};
ghost use Rattle.ld_rules.specs.Held.{same_lock};
ghost use Rattle.ld_rules.specs.Inner.Scanned.{remove_last};
ghost use Rattle.ld_cut.specs.State.{after_any};
ghost use Rattle.ld_trace.specs.declared.event.State.{State};
ghost use Rattle.ld_cut.specs.Inner.Arounds.{kept_around};
ghost use Rattle.ld_cut.specs.Inner.Kept.{IsChanged, IsExited, IsTold, bare, has_both_on, in_handler, is_hold_of, is_on, kept_begun, kept_flag, kept_hold, new_task, of_around, of_begun, of_flag, of_frame, of_hold, of_task, settled, stands, text_of_kept, with_begun, with_hold, with_set, without, without_flags};

use ld_reduce::append_ended;
use ld_replay::task_of;
use ld_trace::{Event, Lock, State};
use std::alloc::{AllocError, Global};
use std::marker::Model;
use std::mem;

/// An acquisition that is open, and its line.
#[derive(Clone, Copy)]
pub(crate) struct Hold<'a> {
    line: &'a [u8],
    lock: Lock<'a>,
    /// The subclass, or 0.
    sub: u8,
}

/// How a line sets a flag.
#[derive(Clone, Copy)]
pub(crate) struct Flag<'a> {
    line: &'a [u8],
    on: bool,
}

/// How a line sets both flags.
#[derive(Clone, Copy)]
pub(crate) struct Begun<'a> {
    line: &'a [u8],
    hard: bool,
    soft: bool,
}

/// What stands in one frame of a task: the lines that set its flags last, and the acquisitions that are open.
#[derive(Drop)]
pub(crate) struct Frame<'a> {
    begun: Option<Begun<'a>>,
    hard: Option<Flag<'a>>,
    soft: Option<Flag<'a>>,
    /// In order of acquisition.
    held: Vec<Hold<'a>>,
}

/// A frame, and the handler that began over it.
#[derive(Drop)]
pub(crate) struct Around<'a> {
    frame: Frame<'a>,
    /// The line at which the handler began.
    line: &'a [u8],
    state: State,
}

/// What one task of a trace is in and holds.
#[derive(Drop)]
pub(crate) struct Task<'a> {
    name: &'a [u8],
    inner: Frame<'a>,
    /// Those around the innermost frame, the outermost first.
    outer: Vec<Around<'a>>,
}

/// Whether a flag is on that was so before a line set it, if one did.
fn is_on(flag: Option<Flag<'_>>, before: bool) -> bool
    ensures { result ≡ is_on (option_map kept_flag flag.entry) before }
{
    match flag {
        Some(flag) => flag.on,
        None => before,
    }
}

impl<'a> Model for Frame<'a> {
    ghost use Rattle.std.specs.Prelude.{map};
    ghost use Rattle.std.specs.Option.{option_map, option_to_list};
    ghost use Rattle.ld_cut.specs.Inner.Kept.{KeptFrame, kept_begun, kept_flag, kept_hold};

    ghost Value = { KeptFrame };

    ghost view = { λ f. record {
      begun = option_map kept_begun f.begun;
      hard = option_map kept_flag f.hard;
      soft = option_map kept_flag f.soft;
      held = map kept_hold f.held.items;
    } };
}

impl<'a> Model for Task<'a> {
    ghost use Rattle.std.specs.Prelude.{map};
    ghost use Rattle.ld_cut.specs.Inner.Kept.{KeptTask};
    ghost use Rattle.ld_cut.specs.Inner.Arounds.{kept_around};

    ghost Value = { KeptTask };

    ghost view = { λ t. record {
      name = t.name.now;
      inner = t.inner;
      outer = map kept_around t.outer.items;
    } };
}

impl<'a> Frame<'a> {
    /// One in which nothing is said.
    fn new(alloc: Global) -> Frame<'a>
        ensures { result ≡ bare }
    {
        Frame {
            begun: None,
            hard: None,
            soft: None,
            held: Vec::new(alloc),
        }
    }

    /// A line sets the flag of a state.
    fn set(&mut self, state: State, flag: Flag<'a>)
        ensures { self.new ≡ with_set state (kept_flag flag.entry) self.old }
    {
        match state {
            State::Hard => self.hard = Some(flag),
            State::Soft => self.soft = Some(flag),
        }
    }

    /// A line sets both flags.
    fn begin(&mut self, begun: Begun<'a>)
        ensures { self.new ≡ with_begun (kept_begun begun.entry) self.old }
    {
        self.begun = Some(begun);
        self.hard = None;
        self.soft = None;
    }

    /// Whether both flags are on, if they were before these lines.
    fn has_both_on(&self) -> bool
        ensures { result ≡ has_both_on self.now }
    {
        let (hard, soft) = match self.begun {
            Some(begun) => (begun.hard, begun.soft),
            None => (true, true),
        };
        is_on(self.hard, hard) && is_on(self.soft, soft)
    }

    /// Forgets the lines that set flags.
    fn forget_flags(&mut self)
        ensures { self.new ≡ without_flags self.old }
    {
        self.begun = None;
        self.hard = None;
        self.soft = None;
    }

    /// A lock is released: its latest acquisition goes, if there is one.
    fn release(&mut self, lock: Lock<'_>)
        ensures { self.new ≡ without (plain_lock lock.entry) self.old }
    {
        if let Some(place) = latest(&self.held, lock) {
            self.held.remove(place);
        }
    }

    /// Writes its lines.
    fn write(&self, text: &mut Vec<u8>) -> Result<(), AllocError>
        ensures { OnOk result ((name : List ℕ) → text.new.items
            ≡ text.old.items ++ text_of_kept (of_frame name self.now)) }
    {
        write_begun(text, self.begun)?;
        write_flag(text, self.hard)?;
        write_flag(text, self.soft)?;
        write_held(text, &self.held)
    }
}

/// Writes the line that sets both flags, if there is one.
fn write_begun(text: &mut Vec<u8>, begun: Option<Begun<'_>>) -> Result<(), AllocError>
    ensures { OnOk result ((name : List ℕ) → text.new.items ≡ text.old.items
        ++ text_of_kept (option_to_list (option_map (of_begun name) (option_map kept_begun begun.entry)))) }
{
    match begun {
        Some(begun) => append_ended(text, begun.line),
        None => Ok(()),
    }
}

/// Writes the line that sets a flag, if there is one.
fn write_flag(text: &mut Vec<u8>, flag: Option<Flag<'_>>) -> Result<(), AllocError>
    ensures { OnOk result ((name : List ℕ) (state : State) → text.new.items ≡ text.old.items
        ++ text_of_kept (option_to_list (option_map (of_flag name state) (option_map kept_flag flag.entry)))) }
{
    match flag {
        Some(flag) => append_ended(text, flag.line),
        None => Ok(()),
    }
}

/// Writes the lines of acquisitions.
fn write_held(text: &mut Vec<u8>, held: &[Hold<'_>]) -> Result<(), AllocError>
    ensures { OnOk result ((name : List ℕ) → text.new.items ≡ text.old.items
        ++ text_of_kept (map (of_hold name) (map kept_hold held.now))) }
{
    for hold in held {
        append_ended(text, hold.line)?;
    }
    Ok(())
}

/// Writes the lines of a frame, and that of the handler that began over it.
fn write_around(text: &mut Vec<u8>, around: &Around<'_>) -> Result<(), AllocError>
    ensures { OnOk result ((name : List ℕ) → text.new.items ≡ text.old.items
        ++ text_of_kept (of_around name (kept_around around.now))) }
{
    around.frame.write(text)?;
    append_ended(text, around.line)
}

impl<'a> Task<'a> {
    /// The task of this name before its trace's first event.
    pub fn new(alloc: Global, name: &'a [u8]) -> Task<'a>
        ensures { result ≡ new_task name.entry.now }
    {
        Task {
            name,
            inner: Frame::new(alloc),
            outer: Vec::new(alloc),
        }
    }

    /// The trace's next event, which this line says.
    ///
    /// # Errors
    ///
    /// Where a growth of memory was refused.
    pub fn step(
        &mut self,
        alloc: Global,
        event: Event<'a>,
        line: &'a [u8],
    ) -> Result<(), AllocError>
        requires one { lines line.now ≡ line.now ∷ [] }
        requires says { said_by (text_of line.now) ≡ Ok (Some (plain_event event)) }
        requires told { IsTold self.old }
        ensures next { OnOk result (stands self.new
            ≡ after_any self.old.name (stands self.old) (plain_event event.entry)) }
        ensures told { OnOk result (IsTold self.new) }
        ensures name { self.new.name ≡ self.old.name }
    {
        if self.name != task_of(&event) {
            return Ok(());
        }
        self.change(alloc, event, line)
    }

    /// The next event of the task itself, which this line says.
    fn change(&mut self, alloc: Global, event: Event<'a>, line: &'a [u8]) -> Result<(), AllocError>
        ensures next { OnOk result (IsChanged self.old (plain_event event.entry) line.entry.now self.new) }
        ensures name { self.new.name ≡ self.old.name }
    {
        match event {
            Event::Acquire { lock, .. } | Event::Try { lock, .. } => self.acquire(lock, 0, line),
            Event::Nested { lock, sub, .. } => self.acquire(lock, sub, line),
            Event::Release { lock, .. } => {
                self.inner.release(lock);
                Ok(())
            }
            Event::Enter { state, .. } => self.enter(alloc, state, line),
            Event::Exit { .. } => {
                self.exit();
                Ok(())
            }
            Event::Enable { state, .. } => {
                self.set(state, Flag { line, on: true });
                Ok(())
            }
            Event::Disable { state, .. } => {
                self.set(state, Flag { line, on: false });
                Ok(())
            }
            Event::Begin { hard, soft, .. } => {
                self.begin(Begun { line, hard, soft });
                Ok(())
            }
        }
    }

    fn acquire(&mut self, lock: Lock<'a>, sub: u8, line: &'a [u8]) -> Result<(), AllocError>
        ensures next { OnOk result (self.new ≡ record self.old {
          inner = with_hold (record { line = line.entry.now; lock = plain_lock lock.entry; sub = sub }) self.old.inner;
        }) }
        ensures name { self.new.name ≡ self.old.name }
    {
        self.inner.held.push(Hold { line, lock, sub })?;
        Ok(())
    }

    fn enter(&mut self, alloc: Global, state: State, line: &'a [u8]) -> Result<(), AllocError>
        ensures next { OnOk result (self.new ≡ in_handler self.old line.entry.now state) }
        ensures name { self.new.name ≡ self.old.name }
    {
        self.outer.reserve(1)?;
        let frame = mem::replace(&mut self.inner, Frame::new(alloc));
        self.outer.push(Around { frame, line, state })?;
        Ok(())
    }

    fn exit(&mut self)
        ensures { IsExited self.old self.new }
    {
        if let Some(around) = self.outer.pop() {
            self.inner = around.frame;
        }
    }

    fn set(&mut self, state: State, flag: Flag<'a>)
        ensures { self.new ≡ settled (record self.old { inner = with_set state (kept_flag flag.entry) self.old.inner }) }
    {
        self.inner.set(state, flag);
        self.settle();
    }

    fn begin(&mut self, begun: Begun<'a>)
        ensures { self.new ≡ settled (record self.old { inner = with_begun (kept_begun begun.entry) self.old.inner }) }
    {
        self.inner.begin(begun);
        self.settle();
    }

    /// Forgets the lines that set flags outside handlers, if both are on, as they are before the first event.
    fn settle(&mut self)
        ensures { self.new ≡ settled self.old }
    {
        if self.outer.is_empty() && self.inner.has_both_on() {
            self.inner.forget_flags();
        }
    }

    /// Writes the lines that have it be in and hold what it does.
    ///
    /// # Errors
    ///
    /// Where a growth of memory was refused.
    pub fn write(&self, text: &mut Vec<u8>) -> Result<(), AllocError>
        ensures { OnOk result (text.new.items ≡ text.old.items ++ text_of_kept (of_task self.now)) }
    {
        for around in &self.outer {
            write_around(text, around)?;
        }
        self.inner.write(text)
    }
}

/// The place of the latest acquisition of a lock.
fn latest(held: &[Hold<'_>], lock: Lock<'_>) -> Option<usize>
    ensures none { IfNone result (list_any (is_hold_of (plain_lock lock.entry)) held.now ≡ false) }
    ensures place { IfSome result (λ i. i < length held.now) }
    ensures last { IfSome result (λ i. remove held.now i
        ≡ remove_last (is_hold_of (plain_lock lock.entry)) held.now) }
{
    let mut place = held.len();
    while place > 0 {
        place -= 1;
        if is_same(lock, held[place].lock) {
            return Some(place);
        }
    }
    None
}

fn is_same(a: Lock<'_>, b: Lock<'_>) -> bool
    ensures { result ≡ same_lock (plain_lock a.entry) (plain_lock b.entry) }
{
    if a.class != b.class {
        return false;
    }
    match (a.instance, b.instance) {
        (None, None) => true,
        (Some(a), Some(b)) => a == b,
        _ => false,
    }
}
