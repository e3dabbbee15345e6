//! What some traces show together, with numbers for their classes.
ghost use Rattle.std.specs.Prelude.{◌≡◌, ◌↔◌, ℕ, ◌+◌, ◌<◌, ◌≤◌, [], ◌∷◌, Option};
ghost use Rattle.std.specs.Prelude.{length, All, Contains, MatchOption, OnErr, OnOk};
ghost use Rattle.ld_class.specs.declared.names.TheConstants.{MOST_NAMES};
ghost use Rattle.ld_class.specs.Names.{plain_class};
ghost use Rattle.ld_rules.specs.Dependency.{Dependency};
ghost use Rattle.ld_rules.specs.Union.{union_classes};
ghost use Rattle.ld_rules.specs.Usage.{Use};
ghost use Rattle.ld_batch.specs.Inner.Names.{AreThere};
ghost use Rattle.ld_union.specs.Inner.Delta.{Tells};
ghost use Rattle.ld_union.specs.Inner.Reached.{IsSourceAt};
ghost use Rattle.ld_union.specs.Inner.States.{of_state};
ghost use Rattle.ld_union.specs.Inner.Union.{Adds, AreBetween, AreUsed, AreWitnessed, edges_of};
ghost use Rattle.ld_union.specs.Inner.Union.{IsCycleEdge, known_row};
ghost use Rattle.ld_union.specs.Usage.{bits_of};

use crate::delta::Delta;
use crate::dependencies::{Dependencies, Witnessed};
use crate::usage::{UsageRow, add_usage};
use ld_batch::{Hints, Shown, intern_all};
use ld_class::{ClassName, Classes};
use ld_graph::{Edge, Graph};
use ld_rules::Witness;
use ld_trace::State;
use std::alloc::{AllocError, Global};
use std::marker::Model;

/// What some traces show together. The number of a class is its place among the classes, and that of
/// an edge its place among the dependencies.
#[derive(Drop)]
pub struct Union<'a> {
    /// The classes, in the order in which they came.
    classes: Classes<'a>,
    /// The dependencies between them.
    dependencies: Dependencies,
    /// The usage of the classes, by their numbers.
    usage: Vec<UsageRow>,
}

impl<'a> Model for Union<'a> {
    ghost use Rattle.ld_union.specs.Inner.Reached.{expanded_by, marks_by, reached_by};
    ghost use Rattle.ld_union.specs.Inner.Union.{IsUnion, PlainUnion};

    ghost Value = { PlainUnion };

    ghost view = { λ u. record {
      classes = u.classes;
      dependencies = u.dependencies.rows.items;
      usage = u.usage.items;
      reached = reached_by u.dependencies.reach;
      marks = marks_by u.dependencies.reach;
      expanded = expanded_by u.dependencies.reach;
    } };

    ghost invariant = { λ u. IsUnion u.classes u.dependencies.graph u.dependencies.rows.items
        u.usage.items u.dependencies.closing u.dependencies.reach };
}

impl<'a> Union<'a> {
    /// What no traces show. Takes no memory.
    pub fn new(alloc: Global) -> Union<'a>
        ensures { result
            ≡ record {
              classes = [];
              dependencies = [];
              usage = [];
              reached = record { hard = []; soft = [] };
              marks = record { hard = []; soft = [] };
              expanded = record { hard = 0; soft = 0 };
            } }
    {
        Union {
            classes: Classes::new(alloc),
            dependencies: Dependencies::new(alloc),
            usage: Vec::new(alloc),
        }
    }

    /// Adds what the traces of a batch show, where those behind it were added already, and writes over
    /// `delta` what of it is new. Classes are looked for where the hints say first; the hints then have their
    /// places, as far as there is memory for them.
    ///
    /// # Errors
    ///
    /// `AllocError` where a growth of memory was refused. Nothing has changed then but spare memory,
    /// `delta` and the hints.
    pub fn add(
        &mut self,
        batch: &Shown<'_, 'a>,
        hints: &mut Hints,
        delta: &mut Delta,
    ) -> Result<(), AllocError>
        requires few { length self.old.classes + length batch.now.classes ≤ MOST_NAMES }
        requires there { AreThere self.old.classes (union_classes batch.now.behind) }
        ensures added { OnOk result (Adds batch.now.behind batch.now.sources self.old self.new) }
        ensures told { OnOk result (Tells self.old self.new delta.new) }
        ensures refused { OnErr result (self.new ≡ self.old) }
    {
        delta.first_reached = self.dependencies.reach.counts();
        let behind = batch.classes_behind();
        let classes = batch.classes().len();
        let new = classes - behind;
        self.dependencies.room(new, batch.count())?;
        self.usage.reserve(new)?;
        delta.bits.clear();
        delta.bits.reserve(batch.usage().len())?;
        let numbers = batch.class_numbers();
        intern_all(&mut self.classes, batch.classes(), behind, numbers, hints)?;
        // From here on no refusal is answered: a hint without memory is left out.
        self.dependencies.enter_classes(self.classes.len());
        let Ok(()) = self.usage.resize(self.classes.len(), UsageRow::unused()) else {
            unreachable!()
        };
        self.dependencies.add(batch, &self.classes, hints);
        add_usage(
            &mut self.usage,
            batch,
            &self.classes,
            hints,
            &mut delta.bits,
        );
        self.dependencies.seed_all(&delta.bits);
        Ok(())
    }

    /// The classes, by their numbers. Takes no memory.
    pub fn classes(&self) -> &Classes<'a>
        ensures same { result.now ≡ self.now.classes }
        ensures few { length self.now.classes ≤ MOST_NAMES }
    {
        &self.classes
    }

    /// The edges between the classes, by their numbers, each with the place where its dependency was
    /// first seen. Takes no memory.
    pub fn dependencies(&self) -> &[Witnessed]
        ensures same { result.now ≡ self.now.dependencies }
        ensures numbered { AreBetween self.now.classes self.now.dependencies }
    {
        &self.dependencies.rows
    }

    /// The usage of the classes, by their numbers. Takes no memory.
    pub fn usage(&self) -> &[UsageRow]
        ensures same { result.now ≡ self.now.usage }
        ensures rows { length self.now.usage ≡ length self.now.classes }
        ensures few { length self.now.classes ≤ MOST_NAMES }
    {
        &self.usage
    }

    /// The graph of the edges. Takes no memory.
    pub fn graph(&self) -> &Graph
        ensures classes { result.now.classes ≡ length self.now.classes }
        ensures edges { result.now.edges ≡ edges_of self.now.dependencies }
        ensures numbered { AreBetween self.now.classes self.now.dependencies }
    {
        &self.dependencies.graph
    }

    /// An edge on a cycle, the one with which the first cycle came, or `None` where there is no cycle. Takes
    /// no memory.
    pub fn closing(&self) -> Option<Edge>
        ensures { IsCycleEdge (edges_of self.now.dependencies) result }
    {
        self.dependencies.closing
    }

    /// The classes to which a walk leads from a class that handlers of the state acquire, in the order in
    /// which they were reached. Takes no memory.
    pub fn reached(&self, state: State) -> &[u32]
        ensures same { result.now ≡ of_state self.now.reached state }
        ensures within { All (λ class. class < length self.now.classes)
            (of_state self.now.reached state) }
        ensures rows { length self.now.usage ≡ length self.now.classes }
        ensures each { (class : ℕ) → Contains (of_state self.now.reached state) class
            ↔ ((from : ℕ) × IsSourceAt (edges_of self.now.dependencies)
            (bits_of self.now.usage) state class from) }
    {
        match state {
            State::Hard => self.dependencies.reach.hard.reached(),
            State::Soft => self.dependencies.reach.soft.reached(),
        }
    }

    /// A class that handlers of the state acquire and from which a walk leads to `class`, or `None` where
    /// there is none. Takes no memory.
    pub fn source(&self, state: State, class: u32) -> Option<u32>
        requires { class < length self.now.classes }
        ensures { MatchOption result
            ((from : ℕ) → ¬ IsSourceAt (edges_of self.now.dependencies)
            (bits_of self.now.usage) state class from)
            (IsSourceAt (edges_of self.now.dependencies) (bits_of self.now.usage) state class) }
    {
        match state {
            State::Hard => self.dependencies.reach.hard.source(class),
            State::Soft => self.dependencies.reach.soft.source(class),
        }
    }

    /// Where the dependency was first seen, or `None` where the traces don't show it. Takes no memory.
    pub fn witness(&self, from: ClassName<'_>, to: ClassName<'_>) -> Option<Witness>
        ensures { (first : Dependency → Option Witness)
            → AreWitnessed self.now.classes self.now.dependencies first
            → result ≡ first (record { from = plain_class from.entry; to = plain_class to.entry }) }
    {
        let from = self.classes.find(from)?;
        let to = self.classes.find(to)?;
        let number = self.dependencies.graph.edge(from, to)?;
        Some(self.dependencies.rows[number as usize].first)
    }

    /// The usage of a class, or `None` where the traces don't show the class. Takes no memory.
    pub fn usage_row(&self, class: ClassName<'_>) -> Option<UsageRow>
        ensures { (first : Use → Option Witness)
            → AreUsed self.now.classes self.now.usage first
            → result ≡ known_row self.now.classes first (plain_class class.entry) }
    {
        let number = self.classes.find(class)?;
        Some(self.usage[number as usize])
    }
}
