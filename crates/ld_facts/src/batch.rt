//! `Batch`, which keeps what a few traces show together.
ghost use Rattle.std.specs.Prelude.{◌≡◌, ◌<◌, ◌≤◌, ◌-◌, ◌*◌, ◌++◌, ◌∷◌, [], None, Some, IfOk, IfSome, OnErr};
ghost use Rattle.std.specs.Prelude.{OnOk, length, slice_index_or};
ghost use Rattle.ld_rules.specs.declared.outcome.Listed.{Listed};
ghost use Rattle.std.specs.List.{last_or};
ghost use Rattle.ld_trace.specs.Sources.{Fits, plain};
ghost use Rattle.ld_rules.specs.declared.outcome.TheConstants.{MOST_CLASSES};
ghost use Rattle.ld_batch.specs.Batch.{AreOutcomes, IsBatch, empty_batch, shown_alone, sources_of};

use crate::known::Facts;
use crate::series::Series;
use ld_batch::{Edges, Hints, Shown, WitnessedUse};
use ld_class::ClassList;
use ld_rules::Listed;
use ld_trace::Source;
use std::alloc::{AllocError, Global};
use std::marker::Model;

/// What a few traces show together: their union, with the first witnesses. It is exact by itself, and
/// says nothing of what other batches have.
///
/// A refused trace is listed, and shows nothing.
#[derive(Drop)]
pub struct Batch<'a> {
    /// No trace of it was handed on.
    series: Series<'a>,
}

impl<'a> Model for Batch<'a> {
    ghost use Rattle.ld_batch.specs.Batch.{PlainBatch};
    ghost use Rattle.std.specs.Prelude.{◌≡◌, []};

    ghost Value = { PlainBatch };

    ghost view = { λ b. record {
      sources = b.series.sources;
      classes = b.series.classes;
      edges = b.series.edges;
      usage = b.series.usage;
    } };

    ghost invariant = { λ b. b.series.behind ≡ [] };
}

impl<'a> Batch<'a> {
    /// A batch that lists no trace. Takes no memory.
    pub fn new(alloc: Global) -> Batch<'a>
        ensures { result ≡ empty_batch }
    {
        Batch {
            series: Series::new(alloc),
        }
    }

    /// Lists no trace from here on, as a new batch does. The memory stays for further traces, and what was
    /// learned of the classes and dependencies of those that it listed.
    pub fn clear(&mut self)
        ensures { self.new ≡ empty_batch }
    {
        self.series.clear();
    }

    /// A batch of the one trace that these facts are of.
    ///
    /// # Errors
    ///
    /// `AllocError` where a growth of memory was refused.
    pub fn of(alloc: Global, facts: &Facts<'a>) -> Result<Batch<'a>, AllocError>
        ensures { IfOk result (λ batch. batch.sources ≡ facts.now.source ∷ []) }
    {
        let mut batch = Batch::new(alloc);
        match batch.push(facts.source()) {
            Ok(()) => Ok(batch),
            Err(refusal) => {
                drop(batch);
                Err(refusal)
            }
        }
    }

    /// Reads one more trace, whose number is above that of the last one, and lists it with its
    /// outcome. What it shows is added; a refused trace shows nothing.
    ///
    /// # Errors
    ///
    /// `AllocError` where a growth of memory was refused. Nothing has changed then but spare memory.
    pub fn push(&mut self, source: Source<'a>) -> Result<(), AllocError>
        requires fits { Fits (plain source) }
        requires above { IfSome (last_or None self.old.sources)
            (λ last. last.number < source.number) }
        ensures ok { OnOk result (self.new.sources ≡ self.old.sources ++ plain source.entry ∷ []) }
        ensures refused { OnErr result (self.new ≡ self.old) }
    {
        self.series.push(source)
    }

    /// The traces with their outcomes, in order of their numbers. Takes no memory.
    pub fn listed(&self) -> &[Listed<'a>]
        ensures sources { sources_of result.now ≡ self.now.sources }
        ensures last { (l : Listed) → 0 < length result.now → last_or None self.now.sources
            ≡ Some (plain (slice_index_or result.now (length result.now - 1) l).source) }
        ensures outcomes { AreOutcomes result.now }
        ensures exact { IsBatch self.now }
        ensures few { length self.now.classes ≤ length self.now.sources * MOST_CLASSES }
    {
        self.series.listed()
    }

    /// The classes of the traces that are read, in order of first acquisition. Takes no memory.
    pub fn classes(&self) -> &ClassList<'a>
        ensures { result.now ≡ self.now.classes }
    {
        self.series.classes()
    }

    /// The dependencies, each once with its first witness, in no promised order. Takes no memory.
    pub fn edges(&self) -> Edges<'_>
        ensures same { result ≡ self.now.edges }
        ensures exact { IsBatch self.now }
    {
        Edges::new(self.series.words())
    }

    /// The usage bits, each of each class once with its first witness, in no promised order. Takes no
    /// memory.
    pub fn usage(&self) -> &[WitnessedUse]
        ensures same { result.now ≡ self.now.usage }
        ensures exact { IsBatch self.now }
    {
        self.series.usage()
    }

    /// What the traces show, with the numbers that the scan has for their classes, by which hints are
    /// kept. Takes no memory.
    pub fn shown(&self) -> Shown<'_, 'a>
        ensures { result ≡ shown_alone self.now }
    {
        self.series.shown()
    }

    /// Puts these hints in the place of those that were kept, and answers those. Takes no memory.
    pub fn swap_hints(&mut self, hints: Hints) -> Hints
        ensures { self.new ≡ self.old }
    {
        self.series.swap_hints(hints)
    }
}
