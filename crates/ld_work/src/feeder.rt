//! What a thread that feeds a desk holds.
ghost use Rattle.std.specs.Prelude.{◌≡◌};

use std::marker::Model;
use std::sync::ledger::{Ledger, Share};

/// How many feeders a desk has at most.
pub const MOST_FEEDERS: usize = 16;

// Clauses cite the constant, so they would hold with any other number.
const _: () = prove!(MOST_FEEDERS == 1 << 4);

/// A number of traces, and how many events those have that are read.
#[derive(Clone, Copy, Debug, PartialEq, Eq)]
pub struct Tally {
    /// All traces, also those that are refused.
    pub traces: u64,
    /// The events of those that are read.
    pub events: u64,
}

/// The right to add traces to a desk, seen as the tally of those that were added by it.
#[derive(Drop)]
pub struct Feeder<T: Ledger, E: Ledger> {
    pub(crate) tally: Tally,
    pub(crate) traces: Share<T>,
    pub(crate) events: Share<E>,
}

impl<T: Ledger, E: Ledger> Model for Feeder<T, E> {
    ghost use Rattle.std.specs.Prelude.{◌≡◌};
    ghost use Rattle.ld_work.specs.declared.feeder.Tally.{Tally};

    ghost Value = { Tally };

    ghost view = { λ f. f.tally };

    ghost invariant = { λ f. (f.traces.parts ≡ 1) × (f.traces.amount ≡ f.tally.traces)
        × (f.events.parts ≡ 1) × (f.events.amount ≡ f.tally.events) };
}

impl<T: Ledger, E: Ledger> Feeder<T, E> {
    /// How many traces and events this feeder added. Takes no memory.
    pub fn tally(&self) -> Tally
        ensures { result ≡ self.now }
    {
        self.tally
    }
}
