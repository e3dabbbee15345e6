//! What the stream has one task hold and run in. No call writes a line that the trace format rejects.
ghost use Rattle.std.specs.Prelude.{◌≡◌, ◌<◌, ◌++◌, ◌∷◌, [], false, length, true, IfNone, IfOk, IfSome, OnOk, remove};
ghost use Rattle.std.specs.List.{list_any};
ghost use Rattle.ld_rules.specs.Inner.Scanned.{remove_last};
ghost use Rattle.ld_tracks.specs.Format.{Writes, depth, entered, exited, is_at, is_of, lets_in};
ghost use Rattle.ld_tracks.specs.Place.{has_effect, inner_of, outer_of};
ghost use Rattle.ld_tracks.specs.Track.{IsBehind, acquire_lines, begin_lines, begun, enter_lines, flag_lines, flagged};
ghost use Rattle.ld_tracks.specs.Track.{fresh, handled, has_room, holding, holds_here, release_lines, without};

use crate::line::{Flags, Held, How, Line, Lock};
use crate::place::Place;
use ld_rules::MOST_HELD;
use ld_trace::State;
use std::alloc::{AllocError, Global};
use std::marker::Model;

/// What the lines of one task, up to here, have it hold and run in.
#[derive(Drop)]
pub struct Track {
    /// The trace has no line of it yet.
    is_new: bool,
    place: Place,
    /// In order of acquisition, over all frames.
    held: Vec<Held>,
}

impl Model for Track {
    ghost use Rattle.ld_tracks.specs.Format.{PlainTrack};

    ghost Value = { PlainTrack };

    ghost use Rattle.ld_tracks.specs.Track.{track_at};

    ghost view = { λ t. track_at t.is_new t.place t.held.items };
}

impl Track {
    /// That of a task without a line: outside handlers, with both flags on and nothing held.
    pub fn new(alloc: Global) -> Track
        ensures { result ≡ fresh }
    {
        Track {
            is_new: true,
            place: Place::new(),
            held: Vec::new(alloc),
        }
    }

    /// The same, of one that was in use: another trace begins.
    pub fn restart(&mut self)
        ensures { self.new ≡ fresh }
    {
        self.is_new = true;
        self.place = Place::new();
        self.held.clear();
    }

    /// Where it runs.
    pub fn place(&self) -> Place
        ensures inner { inner_of result ≡ self.now.inner }
        ensures outer { outer_of result ≡ self.now.outer }
    {
        self.place
    }

    /// The locks that it holds, over all frames, in order of acquisition.
    pub fn held(&self) -> &[Held]
        ensures { result.now ≡ self.now.held }
    {
        &self.held
    }

    /// Writes the flags with which the task starts outside handlers, if they aren't both on and it has no
    /// line yet.
    ///
    /// # Errors
    ///
    /// A growth of memory was refused.
    pub fn begin(&mut self, lines: &mut Vec<Line>, flags: Flags) -> Result<(), AllocError>
        ensures lines { OnOk result (lines.new.items ≡ lines.old.items ++ begin_lines flags self.old) }
        ensures task { OnOk result (self.new ≡ begun flags self.old) }
        ensures taken { OnOk result (Writes self.old lines.old.items self.new lines.new.items) }
    {
        if !self.is_new || self.place.innermost().is_some() || flags.hard && flags.soft {
            return Ok(());
        }
        lines.push(Line::Begin(flags))?;
        self.is_new = false;
        self.place = Place {
            outside: flags,
            ..self.place
        };
        Ok(())
    }

    /// Writes that a flag changes, if it has an effect there and isn't so already.
    ///
    /// # Errors
    ///
    /// A growth of memory was refused.
    pub fn set(&mut self, lines: &mut Vec<Line>, state: State, on: bool) -> Result<(), AllocError>
        ensures lines { OnOk result (lines.new.items ≡ lines.old.items ++ flag_lines state on self.old) }
        ensures task { OnOk result (self.new ≡ flagged state on self.old) }
        ensures taken { OnOk result (Writes self.old lines.old.items self.new lines.new.items) }
    {
        if !self.place.has_effect(state) || self.place.flags().of(state) == on {
            return Ok(());
        }
        lines.push(if on {
            Line::Enable(state)
        } else {
            Line::Disable(state)
        })?;
        self.is_new = false;
        self.place = self.place.with(state, on);
        Ok(())
    }

    /// Writes that the task acquires a lock, if it has room for it: tells whether it has.
    ///
    /// # Errors
    ///
    /// A growth of memory was refused.
    pub fn acquire(
        &mut self,
        lines: &mut Vec<Line>,
        how: How,
        lock: Lock,
    ) -> Result<bool, AllocError>
        ensures room { IfOk result (λ done. done ≡ has_room self.old) }
        ensures lines { OnOk result (lines.new.items ≡ lines.old.items ++ acquire_lines how lock self.old) }
        ensures task { OnOk result (self.new ≡ holding lock self.old) }
        ensures taken { OnOk result (Writes self.old lines.old.items self.new lines.new.items) }
    {
        if self.held.len() >= MOST_HELD {
            return Ok(false);
        }
        let depth = self.place.depth();
        lines.push(Line::Acquire(how, lock))?;
        self.held.push(Held { lock, depth })?;
        self.is_new = false;
        Ok(true)
    }

    /// Writes that the task releases its latest acquisition of a lock in its innermost frame, if there is one:
    /// tells whether there is.
    ///
    /// # Errors
    ///
    /// A growth of memory was refused.
    pub fn release(&mut self, lines: &mut Vec<Line>, lock: Lock) -> Result<bool, AllocError>
        ensures held { IfOk result (λ done. done ≡ holds_here lock self.old) }
        ensures lines { OnOk result (lines.new.items ≡ lines.old.items ++ release_lines lock self.old) }
        ensures task { OnOk result (self.new ≡ without lock self.old) }
        ensures taken { OnOk result (Writes self.old lines.old.items self.new lines.new.items) }
    {
        let depth = self.place.depth();
        let Some(place) = latest(&self.held, depth, lock) else {
            return Ok(false);
        };
        lines.push(Line::Release(lock))?;
        self.held.remove(place);
        self.is_new = false;
        Ok(true)
    }

    /// Writes that a handler begins, if one may there. Interrupts of its state are enabled before it, if they
    /// aren't.
    ///
    /// # Errors
    ///
    /// A growth of memory was refused.
    pub fn enter(&mut self, lines: &mut Vec<Line>, state: State) -> Result<(), AllocError>
        ensures lines { OnOk result (lines.new.items ≡ lines.old.items ++ enter_lines state self.old) }
        ensures task { OnOk result (self.new ≡ handled state self.old) }
        ensures taken { OnOk result (Writes self.old lines.old.items self.new lines.new.items) }
    {
        if !self.place.has_effect(state) {
            return Ok(());
        }
        self.set(lines, State::Hard, true)?;
        if state == State::Soft {
            self.set(lines, State::Soft, true)?;
        }
        self.go_in(lines, state)
    }

    /// Writes that a handler begins where one may.
    fn go_in(&mut self, lines: &mut Vec<Line>, state: State) -> Result<(), AllocError>
        requires open { has_effect state self.old.inner ≡ true }
        requires enabled { lets_in state self.old.inner.flags ≡ true }
        ensures lines { OnOk result (lines.new.items ≡ lines.old.items ++ Line.Enter state ∷ []) }
        ensures task { OnOk result (self.new ≡ entered state self.old) }
        ensures taken { OnOk result (Writes self.old lines.old.items self.new lines.new.items) }
    {
        lines.push(Line::Enter(state))?;
        self.is_new = false;
        self.place = self.place.entered(state);
        Ok(())
    }

    /// Writes that the innermost handler ends, if one runs; before that, that its locks are released, the latest
    /// first.
    ///
    /// # Errors
    ///
    /// A growth of memory was refused.
    pub fn leave(&mut self, lines: &mut Vec<Line>) -> Result<(), AllocError>
        ensures task { OnOk result (IsBehind self.old.outer self.old self.new) }
        ensures taken { OnOk result (Writes self.old lines.old.items self.new lines.new.items) }
    {
        let Some(state) = self.place.innermost() else {
            return Ok(());
        };
        while let Some(lock) = self.latest_here() {
            self.release(lines, lock)?;
        }
        self.go_out(lines, state)
    }

    /// Writes that the innermost handler ends, which holds nothing.
    fn go_out(&mut self, lines: &mut Vec<Line>, state: State) -> Result<(), AllocError>
        requires inside { self.old.inner.state ≡ Some state }
        requires free { list_any (is_at (depth self.old)) self.old.held ≡ false }
        ensures task { OnOk result (exited self.old.outer self.old ≡ Some self.new) }
        ensures taken { OnOk result (Writes self.old lines.old.items self.new lines.new.items) }
    {
        lines.push(Line::Exit(state))?;
        self.is_new = false;
        self.place = self.place.left();
        Ok(())
    }

    /// The lock that it acquired last in its innermost frame and still holds there.
    fn latest_here(&self) -> Option<Lock>
        ensures none { IfNone result (list_any (is_at (depth self.now)) self.now.held ≡ false) }
        ensures some { IfSome result (λ lock. holds_here lock self.now ≡ true) }
    {
        latest_at(&self.held, self.place.depth())
    }
}

/// The place of the latest acquisition of the lock at this depth.
fn latest(held: &[Held], depth: u8, lock: Lock) -> Option<usize>
    ensures none { IfNone result (list_any (is_of depth lock) held.now ≡ false) }
    ensures place { IfSome result (λ i. i < length held.now) }
    ensures last { IfSome result (λ i. remove held.now i ≡ remove_last (is_of depth lock) held.now) }
    ensures one { IfSome result (λ i. list_any (is_of depth lock) held.now ≡ true) }
{
    let mut place = held.len();
    while place > 0 {
        place -= 1;
        if is_of(held[place], depth, lock) {
            return Some(place);
        }
    }
    None
}

/// The lock that was acquired last at this depth.
fn latest_at(held: &[Held], depth: u8) -> Option<Lock>
    ensures none { IfNone result (list_any (is_at depth) held.now ≡ false) }
    ensures some { IfSome result (λ lock. list_any (is_of depth lock) held.now ≡ true) }
{
    let mut place = held.len();
    while place > 0 {
        place -= 1;
        if is_at(held[place], depth) {
            return Some(held[place].lock);
        }
    }
    None
}

/// Whether it was acquired at this depth.
fn is_at(held: Held, depth: u8) -> bool
    ensures { result ≡ is_at depth held }
{
    held.depth == depth
}

/// Whether this is the lock, acquired at this depth.
fn is_of(held: Held, depth: u8, lock: Lock) -> bool
    ensures { result ≡ is_of depth lock held }
{
    held.depth == depth && lock.name == held.lock.name && lock.address == held.lock.address
}
