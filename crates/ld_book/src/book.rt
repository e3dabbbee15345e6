//! `Book`, which keeps what many traces show together.
ghost use Rattle.std.specs.Prelude.{◌≡◌, ◌≢◌, ◌≤◌, ◌++◌, ◌∷◌, [], All, AllPairs, Contains, Err, IfOk, IsSome, List, OnErr, OnOk};
ghost use Rattle.std.specs.Prelude.{false, length, map, true};
ghost use Rattle.ld_class.specs.declared.names.TheConstants.{MOST_NAMES};
ghost use Rattle.ld_class.specs.Names.{AreDistinct, place_of, plain_class};
ghost use Rattle.ld_facts.specs.Union.{dependency_witness, union_classes, use_witness};
ghost use Rattle.ld_facts.specs.Usage.{Use};
ghost use Rattle.ld_union.specs.Alarms.{AreExact, plain_alarms};
ghost use Rattle.ld_union.specs.Findings.{AreByState, AreFindings, plain_findings};
ghost use Rattle.ld_batch.specs.Batch.{AreOutcomes, sources_of};
ghost use Rattle.ld_book.specs.Book.{is_any_listed, is_listed};
ghost use Rattle.ld_book.specs.Dependencies.{AreDependencies, usage_of_class};
ghost use Rattle.ld_trace.specs.Sources.{Fits};
ghost use Rattle.ld_book.specs.Totals.{totals};
ghost use Rattle.ld_union.specs.declared.dependencies.Witnessed.{Witnessed};
ghost use Rattle.ld_union.specs.Usage.{usage_row};

use crate::listing::{Listing, Totals};
use ld_batch::Shown;
use ld_class::{ClassName, Classes};
use ld_facts::{Batch, Facts, Hints, Listed, Series, Witness};
use ld_graph::Graph;
use ld_union::{Alarms, Delta, Findings, Found, Union, UsageRow, Witnessed, findings_of};
use std::alloc::{AllocError, Global};
use std::marker::Model;

/// Why a trace wasn't added. Its facts come back.
#[derive(Drop)]
pub enum Refusal<'a> {
    /// A trace of its number is listed.
    Twice(Facts<'a>),
    /// A growth of memory was refused.
    Memory(Facts<'a>),
}

/// Why a batch wasn't added. It comes back.
#[derive(Drop)]
pub enum BatchRefusal<'a> {
    /// A trace of one of its numbers is listed.
    Twice(Batch<'a>),
    /// A growth of memory was refused.
    Memory(Batch<'a>),
}

/// Why the traces of a batch weren't added. The batch stays as it is.
#[derive(Clone, Copy, Debug, PartialEq, Eq)]
pub enum AddRefusal {
    /// A trace of one of its numbers is listed.
    Twice,
    /// A growth of memory was refused.
    Memory,
}

/// What some traces show together, seen as the list of the traces, in order of arrival.
///
/// Each trace is listed with its outcome. A refused trace is counted, and shows nothing.
#[derive(Drop)]
pub struct Book<'a> {
    listing: Listing<'a>,
    union: Union<'a>,
    /// A violation of each kind that the traces show.
    found: Found,
    /// What was new in the batch that was added last. It keeps its memory for the next one.
    delta: Delta,
    alloc: Global,
}

impl<'a> Model for Book<'a> {
    ghost use Rattle.std.specs.Prelude.{List};
    ghost use Rattle.ld_trace.specs.Sources.{PlainSource};

    ghost Value = { List PlainSource };

    ghost use Rattle.ld_book.specs.Inner.Kept.{IsKept};

    ghost view = { λ b. b.listing.sources };

    ghost invariant = { λ b. IsKept (record {
      sources = b.listing.sources;
      union = b.union;
      found = b.found;
    }) };
}

impl<'a> Book<'a> {
    /// A book that lists no trace. Takes no memory.
    pub fn new(alloc: Global) -> Book<'a>
        ensures { result ≡ [] }
    {
        Book {
            listing: Listing::new(alloc),
            union: Union::new(alloc),
            found: Found::new(),
            delta: Delta::new(alloc),
            alloc,
        }
    }

    /// Lists one more trace, and adds what it shows, as `add_batch` does with a batch of the one. Traces
    /// may come in any order.
    ///
    /// # Errors
    ///
    /// The facts come back, and nothing has changed but spare memory: `Twice` where a trace of that
    /// number is listed, which is tested first, and `Memory` where a growth of memory was refused.
    pub fn add(&mut self, facts: Facts<'a>) -> Result<(), Refusal<'a>>
        ensures ok { OnOk result (self.new ≡ self.old ++ facts.entry.source ∷ []) }
        ensures err { OnErr result (self.new ≡ self.old) }
        ensures twice { is_listed self.old facts.entry.source.number ≡ true
            → result ≡ Err (Refusal.Twice facts.entry) }
        ensures memory { is_listed self.old facts.entry.source.number ≡ false
            → OnErr result (result ≡ Err (Refusal.Memory facts.entry)) }
    {
        if self.listing.has(facts.source().number) {
            return Err(Refusal::Twice(facts));
        }
        match self.enter_one(&facts) {
            Ok(()) => Ok(()),
            Err(AllocError) => Err(Refusal::Memory(facts)),
        }
    }

    /// Lists the traces of a batch, and adds what they show. A batch without traces changes nothing. The batch
    /// stays as it is, but for its hints, of which no clause speaks: to use its memory for further traces,
    /// clear it.
    ///
    /// # Errors
    ///
    /// The book is as before, but for spare memory: `Twice` where a trace of one of the batch's numbers is
    /// listed, which is tested first, and `Memory` where a growth of memory was refused.
    pub fn add_from(&mut self, batch: &mut Batch<'a>) -> Result<(), AddRefusal>
        ensures ok { OnOk result (self.new ≡ self.old ++ batch.old.sources) }
        ensures err { OnErr result (self.new ≡ self.old) }
        ensures batch { batch.new ≡ batch.old }
        ensures twice { is_any_listed self.old batch.old.sources ≡ true
            → result ≡ Err AddRefusal.Twice }
        ensures memory { is_any_listed self.old batch.old.sources ≡ false
            → OnErr result (result ≡ Err AddRefusal.Memory) }
    {
        let mut hints = batch.swap_hints(Hints::new(self.alloc));
        let added = self.add_shown(&batch.shown(), &mut hints);
        batch.swap_hints(hints);
        added
    }

    /// Lists the traces of what a batch shows, and adds that. It says nothing anew of what the traces behind it
    /// show, so all of these have to be listed already.
    ///
    /// # Errors
    ///
    /// The book is as before, but for spare memory: `Twice` where a trace of one of the numbers of what is to
    /// be added is listed, which is tested first, and `Memory` where a growth of memory was refused.
    pub fn add_shown(&mut self, batch: &Shown<'_, 'a>, hints: &mut Hints) -> Result<(), AddRefusal>
        requires { All (Contains self.old) batch.now.behind }
        ensures ok { OnOk result (self.new ≡ self.old ++ batch.now.sources) }
        ensures err { OnErr result (self.new ≡ self.old) }
        ensures twice { is_any_listed self.old batch.now.sources ≡ true
            → result ≡ Err AddRefusal.Twice }
        ensures memory { is_any_listed self.old batch.now.sources ≡ false
            → OnErr result (result ≡ Err AddRefusal.Memory) }
    {
        if self.listing.has_any(batch.traces()) {
            return Err(AddRefusal::Twice);
        }
        match self.enter(batch, hints) {
            Ok(()) => Ok(()),
            Err(AllocError) => Err(AddRefusal::Memory),
        }
    }

    /// Lists the traces of a series that weren't handed on, and adds what they show, as `add_shown` does. The series
    /// stays as it is, but for its hints.
    ///
    /// # Errors
    ///
    /// Those of `add_shown`: the book is as before.
    pub fn add_next(&mut self, series: &mut Series<'a>) -> Result<(), AddRefusal>
        requires { All (Contains self.old) series.old.behind }
        ensures ok { OnOk result (self.new ≡ self.old ++ series.old.sources) }
        ensures err { OnErr result (self.new ≡ self.old) }
        ensures series { series.new ≡ series.old }
        ensures twice { is_any_listed self.old series.old.sources ≡ true
            → result ≡ Err AddRefusal.Twice }
        ensures memory { is_any_listed self.old series.old.sources ≡ false
            → OnErr result (result ≡ Err AddRefusal.Memory) }
    {
        let mut hints = series.swap_hints(Hints::new(self.alloc));
        let added = self.add_shown(&series.shown(), &mut hints);
        series.swap_hints(hints);
        added
    }

    /// Lists the traces of a batch, and adds what they show, as `add_from` does.
    ///
    /// # Errors
    ///
    /// The batch comes back, and nothing has changed but spare memory: `Twice` where a trace of one of its
    /// numbers is listed, which is tested first, and `Memory` where a growth of memory was refused.
    pub fn add_batch(&mut self, mut batch: Batch<'a>) -> Result<(), BatchRefusal<'a>>
        ensures ok { OnOk result (self.new ≡ self.old ++ batch.entry.sources) }
        ensures err { OnErr result (self.new ≡ self.old) }
        ensures twice { is_any_listed self.old batch.entry.sources ≡ true
            → result ≡ Err (BatchRefusal.Twice batch.entry) }
        ensures memory { is_any_listed self.old batch.entry.sources ≡ false
            → OnErr result (result ≡ Err (BatchRefusal.Memory batch.entry)) }
    {
        match self.add_from(&mut batch) {
            Ok(()) => {
                drop(batch);
                Ok(())
            }
            Err(AddRefusal::Twice) => Err(BatchRefusal::Twice(batch)),
            Err(AddRefusal::Memory) => Err(BatchRefusal::Memory(batch)),
        }
    }

    /// Lists one more trace, whose number isn't listed, and adds what it shows.
    ///
    /// `AllocError` where a growth of memory was refused. Nothing has changed then but spare memory.
    fn enter_one(&mut self, facts: &Facts<'a>) -> Result<(), AllocError>
        requires { is_listed self.old facts.now.source.number ≡ false }
        ensures ok { OnOk result (self.new ≡ self.old ++ facts.now.source ∷ []) }
        ensures err { OnErr result (self.new ≡ self.old) }
    {
        let batch = Batch::of(self.alloc, facts)?;
        let entered = self.enter(&batch.shown(), &mut Hints::new(self.alloc));
        drop(batch);
        entered
    }

    /// Lists the traces of what a batch shows, no number of which is listed, and adds that. All traces behind
    /// it are listed.
    ///
    /// `AllocError` where a growth of memory was refused. Nothing has changed then but spare memory.
    fn enter(&mut self, batch: &Shown<'_, 'a>, hints: &mut Hints) -> Result<(), AllocError>
        requires fresh { is_any_listed self.old batch.now.sources ≡ false }
        requires behind { All (Contains self.old) batch.now.behind }
        ensures ok { OnOk result (self.new ≡ self.old ++ batch.now.sources) }
        ensures err { OnErr result (self.new ≡ self.old) }
    {
        let traces = batch.traces();
        self.listing.room(traces.len())?;
        self.union.add(batch, hints, &mut self.delta)?;
        // From here on nothing is refused.
        self.found.note(&self.union, &self.delta);
        self.listing.add_all(traces);
        Ok(())
    }

    /// The traces with their outcomes, in order of arrival. No two have one number. Takes no memory.
    pub fn listed(&self) -> &[Listed<'a>]
        ensures sources { sources_of result.now ≡ self.now }
        ensures outcomes { AreOutcomes result.now }
        ensures fit { All Fits self.now }
        ensures distinct { AllPairs (λ a b. a.number ≢ b.number) self.now }
    {
        self.listing.traces()
    }

    /// How much the traces are and show. No two have one number. Takes no memory.
    pub fn totals(&self) -> Totals
        ensures totals { result ≡ totals self.now }
        ensures distinct { AllPairs (λ a b. a.number ≢ b.number) self.now }
    {
        Totals {
            traces: self.listing.traces().len() as u64,
            refused: self.listing.refused(),
            events: self.listing.events(),
            classes: self.union.classes().len() as u64,
            dependencies: self.union.dependencies().len() as u64,
        }
    }

    /// For each kind of violation one that the traces show, or none where they show none of the kind.
    /// Which one it names is open. Takes no memory.
    pub fn alarms(&self) -> Alarms<'a>
        ensures { AreExact self.now (plain_alarms result) }
    {
        self.found.named(self.union.classes())
    }

    /// Every violation that the traces show, in the order of the report, with the first witnesses and
    /// the shown walks. Where there is no cycle, or no forbidden walk of a state, none is searched for.
    ///
    /// # Errors
    ///
    /// `AllocError` where a growth of memory was refused.
    pub fn findings(&self, alloc: Global) -> Result<Findings<'_, 'a>, AllocError>
        ensures rows { IfOk result (λ findings. AreFindings self.now (plain_findings findings)) }
        ensures states { IfOk result (λ findings. AreByState findings.forbidden) }
    {
        findings_of(alloc, &self.union, &self.found)
    }

    /// Where the dependency between these two classes was first seen, the least trace number first,
    /// or `None` where no trace shows it. Takes no memory.
    pub fn edge(&self, from: ClassName<'_>, to: ClassName<'_>) -> Option<Witness>
        ensures { result ≡ dependency_witness self.now
            (record { from = plain_class from.entry; to = plain_class to.entry }) }
    {
        self.union.witness(from, to)
    }

    /// The usage of a class over all traces, or `None` where no trace shows the class. Takes no memory.
    pub fn usage(&self, class: ClassName<'_>) -> Option<UsageRow>
        ensures { result ≡ usage_row self.now (plain_class class.entry) }
    {
        self.union.usage_row(class)
    }

    /// The classes that the traces acquire, each once. The number of a class is its place among them. Each
    /// class of which a usage bit was seen is one of them. Takes no memory.
    pub fn classes(&self) -> &Classes<'a>
        ensures all { result.now ≡ union_classes self.now }
        ensures distinct { AreDistinct (union_classes self.now) }
        ensures few { length (union_classes self.now) ≤ MOST_NAMES }
        ensures used { (what : Use) → IsSome (use_witness self.now what)
            → IsSome (place_of (union_classes self.now) what.class) }
    {
        self.union.classes()
    }

    /// The usage of each class, by the classes' numbers: its bits, and where each was first seen. Takes no
    /// memory.
    pub fn usage_rows(&self) -> &[UsageRow]
        ensures { result.now ≡ map (usage_of_class self.now) (union_classes self.now) }
    {
        self.union.usage()
    }

    /// The dependencies that the traces show, each once, as edges between the numbers of classes, with the
    /// place where each was first seen. Takes no memory.
    pub fn dependencies(&self) -> &[Witnessed]
        ensures { AreDependencies self.now result.now }
    {
        self.union.dependencies()
    }

    /// The dependencies as a graph between the numbers of classes. Takes no memory.
    pub fn graph(&self) -> &Graph
        ensures classes { result.now.classes ≡ length (union_classes self.now) }
        ensures edges { (rows : List Witnessed) × (AreDependencies self.now rows
            × (result.now.edges ≡ map (λ row. row.edge) rows)) }
    {
        self.union.graph()
    }
}
