//! A book with the history of its traces.
ghost use Rattle.std.specs.Prelude.{◌≡◌, ◌≤◌, ◌++◌, ◌∷◌, [], Some, length, option_map, All, IfSome, IsSome, OnOk};
ghost use Rattle.std.specs.List.{Contains};
ghost use Rattle.ld_book.specs.Totals.{event_count};
ghost use Rattle.ld_batch.specs.Batch.{sources_of};
ghost use Rattle.ld_work.specs.Desk.{IsAddition};
ghost use Rattle.ld_trace.specs.Sources.{plain};
ghost use Rattle.ld_work.specs.Inner.Seen.{entries_of, entry_of};

use crate::desk::Scope;
use crate::feeder::Feeder;
use crate::locked::Locked;
use ld_book::{AddRefusal, Batch, Refusal, Series};
use ld_facts::{Facts, Listed};
use ld_history::{Front, Keeper, Noted, Room};
use ld_trace::Source;
use std::marker::{Brand, Model};
use std::sync::ledger::Ledger;

/// What the lock of a desk keeps, with the history of its book's traces, if the desk has one.
#[derive(Drop)]
pub(crate) struct Kept<'a, T: Ledger, E: Ledger, S: Scope, H: Room> {
    pub(crate) locked: Locked<'a, T, E, S>,
    pub(crate) keeper: Option<Keeper<H>>,
}

impl<'a, T: Ledger, E: Ledger, S: Scope, H: Room> Model for Kept<'a, T, E, S, H> {
    ghost use Rattle.std.specs.Prelude.{◌≡◌, List, option_map};
    ghost use Rattle.ld_trace.specs.Sources.{PlainSource};
    ghost use Rattle.ld_work.specs.Inner.Seen.{entries_of};

    ghost Value = { List PlainSource };

    ghost view = { λ k. k.locked };

    ghost invariant = { λ k. k.keeper ≡ option_map (λ _. entries_of k.locked) H.history };
}

impl<'a, T: Ledger, E: Ledger, S: Scope, H: Room> Kept<'a, T, E, S, H> {
    /// Adds the traces of a batch to the book, and to the tally of the feeder.
    pub(crate) fn submit_from(
        &mut self,
        feeder: &mut Feeder<T, E>,
        batch: &mut Batch<'a>,
    ) -> Result<(), AddRefusal>
        requires { All S.may_list batch.old.sources }
        ensures added { IsAddition batch.old.sources AddRefusal.Twice AddRefusal.Memory result
            self.old self.new feeder.old feeder.new }
        ensures batch { batch.new ≡ batch.old }
    {
        let answer = self.locked.submit_from(feeder, batch);
        if answer.is_err() {
            return answer;
        }
        note(&mut self.keeper, batch.listed());
        answer
    }

    /// The same of the traces that a series lists. Those behind them have to be among those that the front saw; it
    /// then saw all of them.
    pub(crate) fn submit_next(
        &mut self,
        feeder: &mut Feeder<T, E>,
        front: &mut Front<H>,
        series: &mut Series<'a>,
    ) -> Result<(), AddRefusal>
        requires history { IsSome H.history }
        requires list { All S.may_list series.old.sources }
        requires seen { All (Contains front.old) (entries_of series.old.behind) }
        ensures added { IsAddition series.old.sources AddRefusal.Twice AddRefusal.Memory result
            self.old self.new feeder.old feeder.new }
        ensures series { series.new ≡ series.old }
        ensures seen { OnOk result (All (Contains front.new)
            (entries_of (series.old.behind ++ series.old.sources))) }
    {
        compare(&mut self.keeper, front);
        let answer = self.locked.submit_next(feeder, series);
        if answer.is_err() {
            return answer;
        }
        note(&mut self.keeper, series.listed());
        *front = show(&mut self.keeper);
        answer
    }

    /// Changes nothing, and tells how the feeder's tally stands to the book.
    pub(crate) fn covers(&mut self, feeder: &mut Feeder<T, E>)
        ensures book { self.new ≡ self.old }
        ensures feeder { feeder.new ≡ feeder.old }
        ensures traces { feeder.old.traces ≤ length self.old }
        ensures events { feeder.old.events ≤ event_count self.old }
    {
        self.locked.covers(feeder);
    }

    /// What the book lists.
    pub(crate) fn front(&mut self) -> Front<H>
        requires { IsSome H.history }
        ensures { self.new ≡ self.old }
    {
        show(&mut self.keeper)
    }
}

impl<'a, T: Ledger, E: Ledger, H: Room> Kept<'a, T, E, Brand, H> {
    /// Adds a trace to the book, and to the tally of the feeder.
    pub(crate) fn submit(
        &mut self,
        feeder: &mut Feeder<T, E>,
        facts: Facts<'a>,
    ) -> Result<(), Refusal<'a>>
        ensures added { IsAddition (facts.entry.source ∷ [])
            (Refusal.Twice facts.entry) (Refusal.Memory facts.entry) result
            self.old self.new feeder.old feeder.new }
    {
        let source = facts.source();
        let answer = self.locked.submit(feeder, facts);
        if answer.is_err() {
            return answer;
        }
        note_one(&mut self.keeper, source);
        answer
    }
}

/// Adds a source to the history, if there is one.
fn note_one<H: Room>(keeper: &mut Option<Keeper<H>>, source: Source<'_>)
    ensures { keeper.new ≡ option_map (λ all. all ++ entry_of (plain source.entry) ∷ []) keeper.old }
{
    match keeper {
        Some(keeper) => add(keeper, source),
        None => {}
    }
}

/// Adds a source to the history.
fn add<H: Room>(keeper: &mut Keeper<H>, source: Source<'_>)
    ensures { keeper.new ≡ keeper.old ++ entry_of (plain source.entry) ∷ [] }
{
    add_noted::<H, Brand>(keeper, source);
}

/// The same, if this is the source that is noted next.
fn add_noted<H: Room, N: Noted>(keeper: &mut Keeper<H>, _source: Source<'_>)
    requires { N.entry ≡ entry_of (plain _source) }
    ensures { keeper.new ≡ keeper.old ++ entry_of (plain _source.entry) ∷ [] }
{
    keeper.add::<N>();
}

/// Adds these traces to the history, if there is one.
fn note<H: Room>(keeper: &mut Option<Keeper<H>>, traces: &[Listed<'_>])
    ensures { keeper.new ≡ option_map (λ all. all ++ entries_of (sources_of traces.now)) keeper.old }
{
    match keeper {
        Some(keeper) => note_all(keeper, traces),
        None => {}
    }
}

/// Adds these traces to the history.
fn note_all<H: Room>(keeper: &mut Keeper<H>, traces: &[Listed<'_>])
    ensures { keeper.new ≡ keeper.old ++ entries_of (sources_of traces.now) }
{
    for trace in traces {
        add(keeper, trace.source);
    }
}

/// Changes nothing, and tells that the history begins with what the front saw.
fn compare<H: Room>(keeper: &mut Option<Keeper<H>>, front: &mut Front<H>)
    requires { IsSome keeper.old }
    ensures same { keeper.new ≡ keeper.old }
    ensures front { front.new ≡ front.old }
    ensures seen { IfSome keeper.old (λ all. All (Contains all) front.old) }
{
    match keeper {
        Some(keeper) => keeper.covers(front),
        None => unreachable!(),
    }
}

/// The history so far.
fn show<H: Room>(keeper: &mut Option<Keeper<H>>) -> Front<H>
    requires { IsSome keeper.old }
    ensures same { keeper.new ≡ keeper.old }
    ensures front { keeper.old ≡ Some result }
{
    match keeper {
        Some(keeper) => keeper.show(),
        None => unreachable!(),
    }
}
