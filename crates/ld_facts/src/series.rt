//! `Series`, which keeps what traces show that are handed on in batches.
ghost use Rattle.std.specs.Prelude.{◌≡◌, ◌⊎◌, ◌<◌, ◌-◌, ◌++◌, ◌∷◌, [], None, Some, IfSome, OnErr};
ghost use Rattle.std.specs.Prelude.{All, OnOk, length, slice_index_or};
ghost use Rattle.ld_class.specs.Blocks.{IsBlock};
ghost use Rattle.ld_rules.specs.declared.outcome.Listed.{Listed};
ghost use Rattle.std.specs.List.{last_or};
ghost use Rattle.ld_trace.specs.Sources.{Fits, plain};
ghost use Rattle.ld_rules.specs.Union.{union_classes};
ghost use Rattle.ld_batch.specs.Batch.{AreFewClasses, AreOutcomes, IsShown, nothing_shown, sources_of};
ghost use Rattle.ld_batch.specs.Inner.Rows.{edges_of};

use crate::batch_reading::read;
use crate::batch_rows::BatchRows;
use crate::bounds::MOST_KNOWN;
use crate::scan::Scan;
use ld_batch::{Hints, Shown, WitnessedUse, Words};
use ld_class::ClassList;
use ld_rules::Listed;
use ld_trace::Source;
use std::alloc::{AllocError, Global};
use std::marker::Model;
use std::mem;

/// How many traces a series keeps at most that were handed on.
const MOST_PASSED: usize = 1 << 12;

// No clause cites the constant, so all would hold with any other number.
const _: () = prove!(MOST_PASSED == 4_096);

/// How much of a series was handed on: so many traces, classes, words and usage bits, which stand first.
#[derive(Clone, Copy)]
pub(crate) struct Passed {
    traces: usize,
    classes: usize,
    words: usize,
    usage: usize,
}

/// What traces show that come after others: those of the series that weren't handed on yet. A dependency or a
/// usage bit that one of the others shows isn't shown again, so it is told once and handed on once.
///
/// A refused trace is listed, and shows nothing.
#[derive(Drop)]
pub struct Series<'a> {
    /// All traces, those first that were handed on.
    listed: Vec<Listed<'a>>,
    /// It scans each trace on top of what the ones before it show, and is ready for the next one. It may
    /// know more names, chains and words than those of the traces, which were met before the series was
    /// emptied.
    scan: Scan<'a>,
    rows: BatchRows<'a>,
    passed: Passed,
    hints: Hints,
}

impl<'a> Model for Series<'a> {
    ghost use Rattle.ld_batch.specs.Batch.{PlainShown};
    ghost use Rattle.ld_facts.specs.Inner.Series.{IsSeries, shown_of};

    ghost Value = { PlainShown };

    ghost view = { λ s. shown_of (record {
      listed = s.listed.items;
      scan = s.scan;
      classes = s.rows.classes;
      numbers = s.rows.numbers;
      words = s.rows.words.items;
      usage = s.rows.usage.items;
      passed = s.passed;
    }) };

    ghost invariant = { λ s. IsSeries (record {
      listed = s.listed.items;
      scan = s.scan;
      classes = s.rows.classes;
      numbers = s.rows.numbers;
      words = s.rows.words.items;
      usage = s.rows.usage.items;
      passed = s.passed;
    }) };
}

impl<'a> Series<'a> {
    /// A series that lists no trace. Takes no memory.
    pub fn new(alloc: Global) -> Series<'a>
        ensures { result ≡ nothing_shown }
    {
        Series {
            listed: Vec::new(alloc),
            scan: Scan::new(alloc),
            rows: BatchRows::new(alloc),
            passed: Passed {
                traces: 0,
                classes: 0,
                words: 0,
                usage: 0,
            },
            hints: Hints::new(alloc),
        }
    }

    /// Lists no trace from here on, and forgets what was handed on. The memory stays for further traces, and
    /// what was learned of the classes and dependencies of those that it listed.
    pub fn clear(&mut self)
        ensures { self.new ≡ nothing_shown }
    {
        self.listed.clear();
        self.scan.clear();
        self.rows.clear();
        self.passed = Passed {
            traces: 0,
            classes: 0,
            words: 0,
            usage: 0,
        };
    }

    /// The traces that it lists are handed on: it lists none from here on, and further ones come after them. Where it
    /// kept many that were handed on, or has no room for further chains, words or names, it is cleared.
    pub fn pass_on(&mut self)
        ensures { (self.new ≡ nothing_shown)
            ⊎ ((self.new.behind ≡ self.old.behind ++ self.old.sources) × (self.new.sources ≡ [])) }
    {
        if self.has_room() {
            self.pass_all();
        } else {
            self.clear();
        }
    }

    /// Whether it keeps what was handed on.
    fn has_room(&self) -> bool {
        self.listed.len() < MOST_PASSED
            && self.scan.classes.len() <= MOST_KNOWN
            && self.scan.locks.has_room()
    }

    /// All is handed on, and stays.
    fn pass_all(&mut self)
        ensures behind { self.new.behind ≡ self.old.behind ++ self.old.sources }
        ensures sources { self.new.sources ≡ [] }
    {
        self.passed = Passed {
            traces: self.listed.len(),
            classes: self.rows.classes.len(),
            words: self.rows.words.len(),
            usage: self.rows.usage.len(),
        };
    }

    /// Reads one more trace, whose number is above that of the last one, and lists it with its
    /// outcome. What it shows is added, unless an earlier trace shows it; a refused trace shows nothing.
    ///
    /// # Errors
    ///
    /// `AllocError` where a growth of memory was refused. Nothing has changed then but spare memory.
    pub fn push(&mut self, source: Source<'a>) -> Result<(), AllocError>
        requires fits { Fits (plain source) }
        requires above { IfSome (last_or None (self.old.behind ++ self.old.sources))
            (λ last. last.number < source.number) }
        ensures ok { OnOk result (self.new.sources ≡ self.old.sources ++ plain source.entry ∷ []) }
        ensures behind { self.new.behind ≡ self.old.behind }
        ensures refused { OnErr result (self.new ≡ self.old) }
    {
        self.listed.reserve(1)?;
        let outcome = read(&mut self.scan, &mut self.rows, source)?;
        // From here on nothing is refused.
        self.listed.push_reserved(Listed { source, outcome });
        Ok(())
    }

    /// The traces with their outcomes, in order of their numbers. Takes no memory.
    pub fn listed(&self) -> &[Listed<'a>]
        ensures sources { sources_of result.now ≡ self.now.sources }
        ensures last { (l : Listed) → 0 < length result.now → last_or None self.now.sources
            ≡ Some (plain (slice_index_or result.now (length result.now - 1) l).source) }
        ensures outcomes { AreOutcomes result.now }
        ensures exact { IsShown self.now }
        ensures few { AreFewClasses self.now }
    {
        &self.listed[self.passed.traces..]
    }

    /// The traces that were handed on.
    fn behind(&self) -> &[Listed<'a>]
        ensures { sources_of result.now ≡ self.now.behind }
    {
        &self.listed[..self.passed.traces]
    }

    /// The classes of all traces that are read, those first that were handed on, in order of first acquisition. Takes
    /// no memory.
    pub fn classes(&self) -> &ClassList<'a>
        ensures { result.now ≡ self.now.classes }
    {
        &self.rows.classes
    }

    /// The dependencies by words, each once with its first witness, in no promised order.
    pub(crate) fn words(&self) -> Words<'_>
        ensures same { edges_of result.places.now result.words.now ≡ self.now.edges }
        ensures low { All (λ w. IsBlock w.block) result.words.now }
        ensures exact { IsShown self.now }
    {
        Words {
            words: &self.rows.words[self.passed.words..],
            places: self.rows.numbers.places(),
        }
    }

    /// The usage bits, each of each class once with its first witness, in no promised order. Takes no
    /// memory.
    pub fn usage(&self) -> &[WitnessedUse]
        ensures same { result.now ≡ self.now.usage }
        ensures exact { IsShown self.now }
    {
        &self.rows.usage[self.passed.usage..]
    }

    /// How many classes those have that were handed on.
    fn classes_behind(&self) -> usize
        ensures { result ≡ length (union_classes self.now.behind) }
    {
        self.passed.classes
    }

    /// What the traces show, with the numbers that the scan has for their classes, by which hints are
    /// kept. Takes no memory.
    pub fn shown(&self) -> Shown<'_, 'a>
        ensures { result ≡ self.now }
    {
        Shown::new(
            self.behind(),
            self.listed(),
            self.classes(),
            self.classes_behind(),
            self.words(),
            self.usage(),
            self.rows.numbers.as_slice(),
        )
    }

    /// Puts these hints in the place of those that were kept, and answers those. Takes no memory.
    pub fn swap_hints(&mut self, hints: Hints) -> Hints
        ensures { self.new ≡ self.old }
    {
        mem::replace(&mut self.hints, hints)
    }
}
