//! A book behind a lock, which several threads feed.
ghost use Rattle.std.specs.Prelude.{◌≡◌, ◌≢◌, ◌≤◌, ◌++◌, ◌↔◌, ◌∷◌, [], Some, All, length, IfErr, IfOk, IsErr, IsSome, OnOk};
ghost use Rattle.std.specs.List.{Contains};
ghost use Rattle.ld_book.specs.Totals.{event_count};
ghost use Rattle.ld_work.specs.Desk.{IsAddition, IsEvent, sum_of, tally_of};
ghost use Rattle.ld_work.specs.Inner.Seen.{entries_of};

use crate::feeder::{Feeder, MOST_FEEDERS, Tally};
use crate::kept::Kept;
use crate::locked::{Locked, audited, joined};
use ld_book::{AddRefusal, Batch, BatchRefusal, Book, Refusal, Series};
use ld_facts::Facts;
use ld_history::{Front, Opened, Room};
use std::alloc::{AllocError, Global};
use std::marker::{Brand, Model, PhantomData};
use std::sync::ledger::{Blank, Ledger};
use std::sync::{Mutex, MutexGuard, Wait};

/// A book that several threads feed, seen as the number of its feeders.
///
/// The book has as many traces and events as the feeders added. `T` and `E` name the desk's ledgers of traces and of
/// events, by which a feeder is known to be of this desk, `S` what its book may list, and `H` the history of what it
/// listed. If these are left out, it may list any source, and has no history.
#[derive(Drop)]
pub struct Desk<'a, T: Ledger, E: Ledger, S: Scope = Brand, H: Room = Brand> {
    locked: Mutex<Kept<'a, T, E, S, H>>,
    feeders: usize,
}

impl<'a, T: Ledger, E: Ledger, S: Scope, H: Room> Model for Desk<'a, T, E, S, H> {
    ghost use Rattle.std.specs.Prelude.{◌≡◌, ℕ};

    ghost Value = { ℕ };

    ghost view = { λ d. d.feeders };

    ghost invariant = { λ d. (d.feeders ≡ T.parts) × (d.feeders ≡ E.parts) };
}

/// The book of a desk, while no other thread has it, seen as the list of its traces.
#[derive(Drop)]
pub struct Look<'d, 'a, T: Ledger, E: Ledger, S: Scope = Brand, H: Room = Brand> {
    guard: MutexGuard<'d, Kept<'a, T, E, S, H>>,
}

impl<'d, 'a, T: Ledger, E: Ledger, S: Scope, H: Room> Model for Look<'d, 'a, T, E, S, H> {
    ghost use Rattle.std.specs.Prelude.{List};
    ghost use Rattle.std.specs.Sync.Mutex.{mutex_guard_value};
    ghost use Rattle.ld_trace.specs.Sources.{PlainSource};

    ghost Value = { List PlainSource };

    ghost view = { λ l. mutex_guard_value l.guard };
}

/// What a desk gives at its end.
#[derive(Drop)]
pub struct Gathered<'a> {
    /// The desk's book.
    pub book: Book<'a>,
    /// The sum of the tallies of all feeders.
    pub tally: Tally,
}

/// What wasn't gathered, because the feeders aren't as many as the desk was made with.
#[derive(Drop)]
pub struct Back<'a, T: Ledger, E: Ledger, S: Scope = Brand, H: Room = Brand> {
    /// The desk, whose book is as before.
    pub desk: Desk<'a, T, E, S, H>,
    /// The feeders that were handed in.
    pub feeders: Vec<Feeder<T, E>>,
}

impl<'a, T: Ledger, E: Ledger, S: Scope> Desk<'a, T, E, S> {
    /// A desk with an empty book, and its feeders, which have added nothing.
    ///
    /// # Errors
    ///
    /// `AllocError` where memory for the feeders was refused. The blanks don't come back.
    pub fn new(
        alloc: Global,
        traces: Blank,
        events: Blank,
        feeders: usize,
    ) -> Result<(Desk<'a, T, E, S>, Vec<Feeder<T, E>>), AllocError>
        requires some { (1 ≤ feeders) × (feeders ≤ MOST_FEEDERS) }
        requires traces { (traces.name ≡ T.name) × (traces.parts ≡ T.parts)
            × (traces.parts ≡ feeders) }
        requires events { (events.name ≡ E.name) × (events.parts ≡ E.parts)
            × (events.parts ≡ feeders) }
        ensures desk { IfOk result (λ made. made.0 ≡ feeders) }
        ensures count { IfOk result (λ made. length made.1.items ≡ feeders) }
        ensures fresh { IfOk result (λ made. All (λ tally. tally ≡ tally_of []) made.1.items) }
    {
        let (locked, made) = begun(alloc, traces, events, feeders)?;
        let locked = Mutex::new(Kept {
            locked,
            keeper: None,
        });
        Ok((Desk { locked, feeders }, made))
    }
}

impl<'a, T: Ledger, E: Ledger, S: Scope, H: Room> Desk<'a, T, E, S, H> {
    /// The same with this history.
    pub(crate) fn with_history(
        alloc: Global,
        traces: Blank,
        events: Blank,
        feeders: usize,
        opened: Opened,
    ) -> Result<(Desk<'a, T, E, S, H>, Vec<Feeder<T, E>>), AllocError>
        requires some { (1 ≤ feeders) × (feeders ≤ MOST_FEEDERS) }
        requires traces { (traces.name ≡ T.name) × (traces.parts ≡ T.parts)
            × (traces.parts ≡ feeders) }
        requires events { (events.name ≡ E.name) × (events.parts ≡ E.parts)
            × (events.parts ≡ feeders) }
        requires history { H.history ≡ Some opened }
        ensures desk { IfOk result (λ made. made.0 ≡ feeders) }
        ensures count { IfOk result (λ made. length made.1.items ≡ feeders) }
    {
        let (locked, made) = begun(alloc, traces, events, feeders)?;
        let locked = Mutex::new(Kept {
            locked,
            keeper: Some(opened.named::<H>()),
        });
        Ok((Desk { locked, feeders }, made))
    }

    /// Waits until no other thread has the book, and lends it. Takes no memory.
    pub fn look<R: Wait>(&self, rt: &R) -> Look<'_, 'a, T, E, S, H> {
        Look {
            guard: self.locked.lock(rt),
        }
    }

    /// Ends the desk: gives its book, and the sum of the tallies of all feeders, which are just the
    /// book's traces and events. Doesn't wait, and takes no memory.
    ///
    /// # Errors
    ///
    /// Desk and feeders come back where the feeders aren't as many as the desk was made with.
    pub fn gather(self, feeders: Vec<Feeder<T, E>>) -> Result<Gathered<'a>, Back<'a, T, E, S, H>>
        ensures not_all { IsErr result ↔ (length feeders.items ≢ self.entry) }
        ensures back { IfErr result (λ back.
            (back.desk ≡ self.entry) × (back.feeders ≡ feeders)) }
        ensures sum { IfOk result (λ all. all.tally ≡ sum_of feeders.items) }
        ensures book { IfOk result (λ all. all.tally ≡ tally_of all.book) }
        ensures scope { IfOk result (λ all. All S.may_list all.book) }
    {
        if feeders.len() != self.feeders {
            return Err(Back {
                desk: self,
                feeders,
            });
        }
        let Kept { locked, .. } = self.locked.into_inner();
        let Locked {
            book,
            trace_sum,
            event_sum,
            no_traces,
            no_events,
            ..
        } = locked;
        let (traces, events) = joined(feeders, no_traces, no_events);
        let tally = audited(&book, trace_sum, event_sum, traces, events);
        Ok(Gathered { book, tally })
    }
}

/// An empty book, and so many feeders, which have added nothing.
///
/// `AllocError` where memory for the feeders was refused.
fn begun<'a, T: Ledger, E: Ledger, S: Scope>(
    alloc: Global,
    traces: Blank,
    events: Blank,
    feeders: usize,
) -> Result<(Locked<'a, T, E, S>, Vec<Feeder<T, E>>), AllocError>
    requires some { (1 ≤ feeders) × (feeders ≤ MOST_FEEDERS) }
    requires traces { (traces.name ≡ T.name) × (traces.parts ≡ T.parts)
        × (traces.parts ≡ feeders) }
    requires events { (events.name ≡ E.name) × (events.parts ≡ E.parts)
        × (events.parts ≡ feeders) }
    ensures book { IfOk result (λ made. made.0 ≡ []) }
    ensures count { IfOk result (λ made. length made.1.items ≡ feeders) }
    ensures fresh { IfOk result (λ made. All (λ tally. tally ≡ tally_of []) made.1.items) }
{
    let (trace_sum, mut no_traces) = traces.open::<T>();
    let (event_sum, mut no_events) = events.open::<E>();
    let mut made = Vec::new(alloc);
    for _ in 0..feeders {
        made.push(Feeder {
            tally: Tally {
                traces: 0,
                events: 0,
            },
            traces: no_traces.split_off(1, 0),
            events: no_events.split_off(1, 0),
        })?;
    }
    let locked = Locked {
        book: Book::new(alloc),
        trace_sum,
        event_sum,
        no_traces,
        no_events,
        scope: PhantomData,
    };
    Ok((locked, made))
}

impl<'d, 'a, T: Ledger, E: Ledger, S: Scope, H: Room> Look<'d, 'a, T, E, S, H> {
    /// The desk's book, as it is until this look ends. Takes no memory.
    pub fn book(&self) -> &Book<'a>
        ensures { result.now ≡ self.now }
    {
        &self.guard.locked.book
    }

    /// Adds the traces of a batch to the desk's book, as `Book::add_from` does, and counts them in the
    /// feeder's tally. All have to be among those that the book may list. The batch stays as it is, but for
    /// its hints, so that it can be cleared once the look has ended.
    ///
    /// # Errors
    ///
    /// Those of `Book::add_from`: the book and the tally are as before.
    pub fn submit_from(
        &mut self,
        feeder: &mut Feeder<T, E>,
        batch: &mut Batch<'a>,
    ) -> Result<(), AddRefusal>
        requires { All S.may_list batch.old.sources }
        ensures added { IsAddition batch.old.sources AddRefusal.Twice AddRefusal.Memory result
            self.old self.new feeder.old feeder.new }
        ensures batch { batch.new ≡ batch.old }
        ensures event { IsEvent self.old self.new feeder.old feeder.new }
    {
        self.guard.submit_from(feeder, batch)
    }

    /// The same of the traces that a series lists. Those behind them have to be among those that the front saw; it
    /// then saw all of them.
    pub(crate) fn submit_next(
        &mut self,
        feeder: &mut Feeder<T, E>,
        front: &mut Front<H>,
        series: &mut Series<'a>,
    ) -> Result<(), AddRefusal>
        requires history { IsSome H.history }
        requires list { All S.may_list series.old.sources }
        requires seen { All (Contains front.old) (entries_of series.old.behind) }
        ensures added { IsAddition series.old.sources AddRefusal.Twice AddRefusal.Memory result
            self.old self.new feeder.old feeder.new }
        ensures series { series.new ≡ series.old }
        ensures seen { OnOk result (All (Contains front.new)
            (entries_of (series.old.behind ++ series.old.sources))) }
        ensures event { IsEvent self.old self.new feeder.old feeder.new }
    {
        self.guard.submit_next(feeder, front, series)
    }

    /// What the book lists, for a worker to take along.
    pub(crate) fn front(&mut self) -> Front<H>
        requires history { IsSome H.history }
        ensures book { self.new ≡ self.old }
    {
        self.guard.front()
    }

    /// Changes nothing, and tells that the book has at least the traces and the events that this
    /// feeder added to it. Takes no memory.
    pub fn covers(&mut self, feeder: &mut Feeder<T, E>)
        ensures book { self.new ≡ self.old }
        ensures feeder { feeder.new ≡ feeder.old }
        ensures traces { feeder.old.traces ≤ length self.old }
        ensures events { feeder.old.events ≤ event_count self.old }
    {
        self.guard.covers(feeder)
    }
}

impl<'d, 'a, T: Ledger, E: Ledger, H: Room> Look<'d, 'a, T, E, Brand, H> {
    /// Adds a trace to the desk's book, as `Book::add` does, and counts it in the feeder's tally.
    ///
    /// # Errors
    ///
    /// Those of `Book::add`: the facts come back, and the book and the tally are as before.
    pub fn submit(&mut self, feeder: &mut Feeder<T, E>, facts: Facts<'a>) -> Result<(), Refusal<'a>>
        ensures added { IsAddition (facts.entry.source ∷ [])
            (Refusal.Twice facts.entry) (Refusal.Memory facts.entry) result
            self.old self.new feeder.old feeder.new }
        ensures event { IsEvent self.old self.new feeder.old feeder.new }
    {
        self.guard.submit(feeder, facts)
    }

    /// Adds the traces of a batch to the desk's book, as `Book::add_batch` does, and counts them in the
    /// feeder's tally.
    ///
    /// # Errors
    ///
    /// Those of `Book::add_batch`: the batch comes back, and the book and the tally are as before.
    pub fn submit_batch(
        &mut self,
        feeder: &mut Feeder<T, E>,
        mut batch: Batch<'a>,
    ) -> Result<(), BatchRefusal<'a>>
        ensures added { IsAddition batch.entry.sources
            (BatchRefusal.Twice batch.entry) (BatchRefusal.Memory batch.entry) result
            self.old self.new feeder.old feeder.new }
        ensures event { IsEvent self.old self.new feeder.old feeder.new }
    {
        match self.guard.submit_from(feeder, &mut batch) {
            Ok(()) => {
                drop(batch);
                Ok(())
            }
            Err(AddRefusal::Twice) => Err(BatchRefusal::Twice(batch)),
            Err(AddRefusal::Memory) => Err(BatchRefusal::Memory(batch)),
        }
    }
}

/// Which sources the book of a desk may list. Only proofs read it. `Brand` lets the book list any; where a function
/// over a scope is called with `Brand`, the proof of the call may pick others.
pub trait Scope {
    ghost use Rattle.ld_trace.specs.Sources.{PlainSource};

    ghost may_list: { PlainSource → Type 0 };
}

impl Scope for Brand {
    ghost may_list = { λ _. Unit {0} };
}
