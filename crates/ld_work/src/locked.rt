//! A book, beside what all feeders added to it, and the sums of that.
ghost use Rattle.std.specs.Prelude.{◌≡◌, ◌≤◌, ◌∷◌, [], length, All, ◌<◌, ◌+◌, ◌^◌};
ghost use Rattle.std.specs.List.{Contains};
ghost use Rattle.ld_book.specs.Totals.{event_count};
ghost use Rattle.ld_work.specs.Desk.{IsAddition, plus, sum_of, tally_of};
ghost use Rattle.ld_work.specs.Inner.Seen.{entries_of};

use crate::desk::Scope;
use crate::feeder::{Feeder, Tally};
use ld_book::{AddRefusal, Batch, Book, Refusal, Series, Totals};
use ld_facts::Facts;
use std::marker::{Brand, Model, PhantomData};
use std::sync::ledger;
use std::sync::ledger::{Ledger, Share};

/// What the lock of a desk keeps: the book, beside the sum of what all feeders added to it.
#[derive(Drop)]
pub(crate) struct Locked<'a, T: Ledger, E: Ledger, S: Scope> {
    pub(crate) book: Book<'a>,
    pub(crate) trace_sum: ledger::Book<T>,
    pub(crate) event_sum: ledger::Book<E>,
    /// Of no feeder, to begin a sum with.
    pub(crate) no_traces: Share<T>,
    pub(crate) no_events: Share<E>,
    pub(crate) scope: PhantomData<S>,
}

impl<'a, T: Ledger, E: Ledger, S: Scope> Model for Locked<'a, T, E, S> {
    ghost use Rattle.std.specs.Prelude.{◌≡◌, List, length, All};
    ghost use Rattle.ld_trace.specs.Sources.{PlainSource};
    ghost use Rattle.ld_book.specs.Totals.{event_count};

    ghost Value = { List PlainSource };

    ghost view = { λ l. l.book };

    ghost invariant = { λ l. (l.trace_sum.total ≡ length l.book)
        × (l.event_sum.total ≡ event_count l.book)
        × (l.no_traces.parts ≡ 0) × (l.no_traces.amount ≡ 0)
        × (l.no_events.parts ≡ 0) × (l.no_events.amount ≡ 0)
        × All S.may_list l.book };
}

impl<'a, T: Ledger, E: Ledger, S: Scope> Locked<'a, T, E, S> {
    /// Adds the traces of a batch to the book, and to the tally of the feeder.
    pub(crate) fn submit_from(
        &mut self,
        feeder: &mut Feeder<T, E>,
        batch: &mut Batch<'a>,
    ) -> Result<(), AddRefusal>
        requires { All S.may_list batch.old.sources }
        ensures added { IsAddition batch.old.sources AddRefusal.Twice AddRefusal.Memory result
            self.old self.new feeder.old feeder.new }
        ensures batch { batch.new ≡ batch.old }
    {
        let before = self.book.totals();
        self.book.add_from(batch)?;
        let more = added_since(before, self.book.totals());
        count(&mut self.trace_sum, &mut self.event_sum, feeder, more);
        Ok(())
    }

    /// The same of the traces that a series lists. Those behind them have to be listed.
    pub(crate) fn submit_next(
        &mut self,
        feeder: &mut Feeder<T, E>,
        series: &mut Series<'a>,
    ) -> Result<(), AddRefusal>
        requires list { All S.may_list series.old.sources }
        requires seen { All (Contains (entries_of self.old)) (entries_of series.old.behind) }
        ensures added { IsAddition series.old.sources AddRefusal.Twice AddRefusal.Memory result
            self.old self.new feeder.old feeder.new }
        ensures series { series.new ≡ series.old }
    {
        let before = self.book.totals();
        self.book.add_next(series)?;
        let more = added_since(before, self.book.totals());
        count(&mut self.trace_sum, &mut self.event_sum, feeder, more);
        Ok(())
    }

    /// Changes nothing, and tells how the feeder's tally stands to the book.
    pub(crate) fn covers(&mut self, feeder: &mut Feeder<T, E>)
        ensures book { self.new ≡ self.old }
        ensures feeder { feeder.new ≡ feeder.old }
        ensures traces { feeder.old.traces ≤ length self.old }
        ensures events { feeder.old.events ≤ event_count self.old }
    {
        self.trace_sum.audit(&mut feeder.traces);
        self.event_sum.audit(&mut feeder.events);
    }
}

impl<'a, T: Ledger, E: Ledger> Locked<'a, T, E, Brand> {
    /// Adds a trace to the book, and to the tally of the feeder.
    pub(crate) fn submit(
        &mut self,
        feeder: &mut Feeder<T, E>,
        facts: Facts<'a>,
    ) -> Result<(), Refusal<'a>>
        ensures added { IsAddition (facts.entry.source ∷ [])
            (Refusal.Twice facts.entry) (Refusal.Memory facts.entry) result
            self.old self.new feeder.old feeder.new }
    {
        let before = self.book.totals();
        self.book.add(facts)?;
        let more = added_since(before, self.book.totals());
        count(&mut self.trace_sum, &mut self.event_sum, feeder, more);
        Ok(())
    }
}

/// How many traces and events a book has more than it had.
pub(crate) fn added_since(before: Totals, now: Totals) -> Tally
    requires traces { before.traces ≤ now.traces }
    requires events { before.events ≤ now.events }
    ensures traces { before.traces + result.traces ≡ now.traces }
    ensures events { before.events + result.events ≡ now.events }
{
    Tally {
        traces: now.traces - before.traces,
        events: now.events - before.events,
    }
}

/// Counts these traces and events in the feeder's tally, and in the sums of all feeders.
pub(crate) fn count<T: Ledger, E: Ledger>(
    trace_sum: &mut ledger::Book<T>,
    event_sum: &mut ledger::Book<E>,
    feeder: &mut Feeder<T, E>,
    more: Tally,
)
    requires traces { trace_sum.old.total + more.traces < 2 ^ 64 }
    requires events { event_sum.old.total + more.events < 2 ^ 64 }
    ensures traces { trace_sum.new.total ≡ trace_sum.old.total + more.traces }
    ensures events { event_sum.new.total ≡ event_sum.old.total + more.events }
    ensures feeder { feeder.new ≡ plus feeder.old more }
{
    trace_sum.add(&mut feeder.traces, more.traces);
    event_sum.add(&mut feeder.events, more.events);
    // What a feeder added is no more than the sums of all, so its tally can't overflow.
    trace_sum.audit(&mut feeder.traces);
    event_sum.audit(&mut feeder.events);
    feeder.tally.traces += more.traces;
    feeder.tally.events += more.events;
}

/// The book's traces and events, which are what these shares of the two sums have, since they are whole.
pub(crate) fn audited<T: Ledger, E: Ledger>(
    book: &Book<'_>,
    mut trace_sum: ledger::Book<T>,
    mut event_sum: ledger::Book<E>,
    mut trace_share: Share<T>,
    mut event_share: Share<E>,
) -> Tally
    requires traces { (trace_sum.total ≡ length book.now) × (trace_share.parts ≡ T.parts) }
    requires events { (event_sum.total ≡ event_count book.now) × (event_share.parts ≡ E.parts) }
    ensures book { result ≡ tally_of book.now }
    ensures shares { result
        ≡ record { traces = trace_share.amount; events = event_share.amount } }
{
    trace_sum.audit(&mut trace_share);
    event_sum.audit(&mut event_share);
    let totals = book.totals();
    Tally {
        traces: totals.traces,
        events: totals.events,
    }
}

/// These shares with those of all feeders.
pub(crate) fn joined<T: Ledger, E: Ledger>(
    feeders: Vec<Feeder<T, E>>,
    mut traces: Share<T>,
    mut events: Share<E>,
) -> (Share<T>, Share<E>)
    requires traces { (traces.parts ≡ 0) × (traces.amount ≡ 0) }
    requires events { (events.parts ≡ 0) × (events.amount ≡ 0) }
    ensures parts { (result.0.parts ≡ length feeders.items)
        × (result.1.parts ≡ length feeders.items) }
    ensures sum { record { traces = result.0.amount; events = result.1.amount }
        ≡ sum_of feeders.items }
{
    for feeder in feeders {
        traces.merge(feeder.traces);
        events.merge(feeder.events);
    }
    (traces, events)
}
