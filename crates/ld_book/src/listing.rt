//! The traces that a book lists, with their numbers and their sums.
ghost use Rattle.std.specs.Prelude.{◌≡◌, ◌≢◌, ◌+◌, ◌<◌, ◌≤◌, ◌++◌, ◌∷◌, [], false, length, All, AllPairs, OnOk, if◌then◌else◌};
ghost use Rattle.std.specs.List.{list_any};
ghost use Rattle.ld_trace.specs.declared.source.TheConstants.{MOST_TRACES};
ghost use Rattle.ld_trace.specs.Sources.{Fits, plain};
ghost use Rattle.ld_facts.specs.Outcome.{outcome};
ghost use Rattle.ld_batch.specs.Batch.{AreOutcomes, sources_of};
ghost use Rattle.ld_book.specs.Book.{is_any_listed, is_listed};
ghost use Rattle.ld_book.specs.Totals.{event_count, refused_count, events_read, is_refused};

use ld_facts::{Listed, Outcome};
use ld_trace::MOST_TRACES;
use std::alloc::{AllocError, Global};
use std::marker::Model;

/// Some traces, no two of one number, in order of arrival.
#[derive(Drop)]
pub(crate) struct Listing<'a> {
    traces: Vec<Listed<'a>>,
    /// For each number whether a trace has it, once there was memory for a trace.
    marks: Vec<bool>,
    /// How many events those traces have that are read.
    events: u64,
    /// How many traces are refused.
    refused: u64,
    /// For how many further traces there is memory.
    spare: usize,
}

impl<'a> Model for Listing<'a> {
    ghost use Rattle.ld_book.specs.Inner.Listing.{IsListing, PlainListing, listing_of};

    ghost Value = { PlainListing };

    ghost view = { listing_of };

    ghost invariant = { IsListing };
}

impl<'a> Listing<'a> {
    /// No trace. Takes no memory.
    pub(crate) fn new(alloc: Global) -> Listing<'a>
        ensures { result ≡ record { sources = []; spare = 0 } }
    {
        Listing {
            traces: Vec::new(alloc),
            marks: Vec::new(alloc),
            events: 0,
            refused: 0,
            spare: 0,
        }
    }

    /// Whether a trace of this number is listed.
    pub(crate) fn has(&self, number: u64) -> bool
        ensures { result ≡ is_listed self.now.sources number }
    {
        matches!(self.marks.get(number as usize), Some(true))
    }

    /// Whether a trace of the number of one of these is listed.
    pub(crate) fn has_any(&self, traces: &[Listed<'_>]) -> bool
        ensures { result ≡ is_any_listed self.now.sources (sources_of traces.now) }
    {
        for trace in traces {
            if self.has(trace.source.number) {
                return true;
            }
        }
        false
    }

    /// Takes the memory for so many further traces.
    ///
    /// `AllocError` where memory was refused. Nothing has changed in either case but the spare.
    pub(crate) fn room(&mut self, count: usize) -> Result<(), AllocError>
        ensures sources { self.new.sources ≡ self.old.sources }
        ensures spare { OnOk result (self.new.spare ≡ count) }
        ensures few { length self.old.sources ≤ MOST_TRACES }
    {
        self.traces.reserve(count)?;
        self.marks.resize(MOST_TRACES as usize, false)?;
        self.spare = count;
        Ok(())
    }

    /// Lists one more trace. Takes no memory.
    fn add(&mut self, trace: Listed<'a>)
        requires room { 0 < self.old.spare }
        requires fresh { is_listed self.old.sources trace.source.number ≡ false }
        requires outcome { trace.outcome ≡ outcome (plain trace.source) }
        requires fits { Fits (plain trace.source) }
        ensures sources { self.new.sources ≡ self.old.sources ++ plain trace.entry.source ∷ [] }
        ensures spare { self.new.spare + 1 ≡ self.old.spare }
    {
        self.events += events_of(trace.outcome);
        self.refused += refused_of(trace.outcome);
        self.marks[trace.source.number as usize] = true;
        self.traces.push_reserved(trace);
        self.spare -= 1;
    }

    /// Lists these traces too. Takes no memory.
    pub(crate) fn add_all(&mut self, traces: &[Listed<'a>])
        requires room { length traces.now ≤ self.old.spare }
        requires fresh { is_any_listed self.old.sources (sources_of traces.now) ≡ false }
        requires apart { AllPairs (λ a b. a.number ≢ b.number) (sources_of traces.now) }
        requires outcomes { AreOutcomes traces.now }
        requires fit { All Fits (sources_of traces.now) }
        ensures { self.new.sources ≡ self.old.sources ++ sources_of traces.now }
    {
        for trace in traces {
            self.add(*trace);
        }
    }

    /// The traces with their outcomes, in order of arrival.
    pub(crate) fn traces(&self) -> &[Listed<'a>]
        ensures sources { sources_of result.now ≡ self.now.sources }
        ensures outcomes { AreOutcomes result.now }
        ensures fit { All Fits self.now.sources }
        ensures apart { AllPairs (λ a b. a.number ≢ b.number) self.now.sources }
    {
        &self.traces
    }

    /// How many events those traces have that are read.
    pub(crate) fn events(&self) -> u64
        ensures { result ≡ event_count self.now.sources }
    {
        self.events
    }

    /// How many traces are refused.
    pub(crate) fn refused(&self) -> u64
        ensures { result ≡ refused_count self.now.sources }
    {
        self.refused
    }
}

/// How much some traces are and show.
#[derive(Clone, Copy, Debug, PartialEq, Eq)]
pub struct Totals {
    /// How many traces there are.
    pub traces: u64,
    /// How many of them are refused.
    pub refused: u64,
    /// How many events those have that are read.
    pub events: u64,
    /// How many classes these acquire, each counted once.
    pub classes: u64,
    /// How many dependencies these show, each counted once.
    pub dependencies: u64,
}

/// How many refused traces a trace with this outcome counts for: one or none.
pub(crate) fn refused_of(outcome: Outcome) -> u64
    ensures { result ≡ (if is_refused outcome then 1 else 0) }
{
    match outcome {
        Outcome::Read { .. } => 0,
        Outcome::Refused { .. } => 1,
    }
}

/// How many events a trace with this outcome counts for: all where it is read, or none.
pub(crate) fn events_of(outcome: Outcome) -> u64
    ensures { result ≡ events_read outcome }
{
    match outcome {
        Outcome::Read { events } => events,
        Outcome::Refused { .. } => 0,
    }
}
