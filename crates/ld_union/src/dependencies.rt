//! The dependencies between numbered classes, each with the place where it was first seen, and where
//! they lead.
ghost use Rattle.std.specs.Prelude.{◌≡◌, ℕ, ◌+◌, ◌<◌, ◌≤◌, List, Option, OnErr, OnOk, [], All, true};
ghost use Rattle.std.specs.Prelude.{length, take, vec_len, vec_capacity};
ghost use Rattle.std.specs.List.{list_any};
ghost use Rattle.ld_trace.specs.declared.event.State.{State};
ghost use Rattle.ld_class.specs.Blocks.{IsBlock};
ghost use Rattle.ld_class.specs.Names.{PlainClass};
ghost use Rattle.ld_rules.specs.Dependency.{Dependency};
ghost use Rattle.ld_rules.specs.Union.{dependency_witness};
ghost use Rattle.ld_rules.specs.Usage.{IsBit};
ghost use Rattle.ld_batch.specs.Batch.{IsBetween, IsShown, first_since};
ghost use Rattle.ld_batch.specs.Inner.Names.{AreThere};
ghost use Rattle.ld_batch.specs.Inner.Rows.{edges_in};
ghost use Rattle.ld_graph.specs.declared.graph.TheConstants.{MOST_GRAPH_CLASSES};
ghost use Rattle.ld_graph.specs.Edges.{IsEdge, IsEdgeNumber, PlainGraph, empty_graph, with_spares};
ghost use Rattle.ld_graph.specs.Order.{IsInserted};
ghost use Rattle.ld_graph.specs.Reach.{IsReach, no_reach};
ghost use Rattle.ld_union.specs.Inner.Earlier.{AreEarlier, is_earlier};
ghost use Rattle.ld_union.specs.Inner.Reached.{AreFurther, HaveClasses, IsSeeded, StayExact};
ghost use Rattle.ld_union.specs.Inner.States.{of_state};
ghost use Rattle.ld_union.specs.Inner.Union.{AreBetween, AreWitnessed, IsCycleEdge, edges_of, named_edge};
ghost use Rattle.ld_union.specs.Inner.Union.{with_first, with_seen};

mod earlier;

use crate::delta::NewBit;
use crate::dependencies::earlier::Earlier;
use crate::reaches::PerState;
use ld_batch::{Hints, Shown, WitnessedWord, Words, place_in};
use ld_class::{ClassList, Classes};
use ld_graph::{Edge, Graph, Insert, Reach, Steps};
use ld_rules::Witness;
use std::alloc::{AllocError, Global};

/// An edge of the graph, and where its dependency was first seen.
#[derive(Clone, Copy, Debug)]
pub struct Witnessed {
    /// The edge, from the class that was held to the one that was acquired under it.
    pub edge: Edge,
    /// Where the dependency was first seen: the least trace number first, then the least line.
    pub first: Witness,
}

/// The dependencies between some numbered classes.
#[derive(Drop)]
pub(crate) struct Dependencies {
    pub(crate) graph: Graph,
    /// The edges of the graph, by their numbers.
    pub(crate) rows: Vec<Witnessed>,
    /// The edge with which the first cycle came.
    pub(crate) closing: Option<Edge>,
    /// For each state what classes with the bit that its handlers acquire them lead to.
    pub(crate) reach: PerState<Reach>,
    /// Which dependencies were seen before a trace.
    earlier: Earlier,
    ghost same_edges: { graph.edges ≡ edges_of rows.items },
    ghost counted: { HaveClasses graph.classes reach },
    ghost seen_earlier: { AreEarlier rows.items earlier },
}

impl Dependencies {
    /// Those of no classes.
    pub(crate) fn new(alloc: Global) -> Dependencies
        ensures graph { result.graph ≡ empty_graph }
        ensures rows { result.rows.items ≡ [] }
        ensures closing { IsCycleEdge [] result.closing }
        ensures hard { result.reach.hard ≡ no_reach }
        ensures soft { result.reach.soft ≡ no_reach }
        ensures exact { (state : State) → IsReach (IsEdge []) [] (of_state result.reach state) }
    {
        Dependencies {
            graph: Graph::new(alloc),
            rows: Vec::new(alloc),
            closing: None,
            reach: PerState::<Reach>::new(alloc),
            earlier: Earlier::new(alloc),
        }
    }

    /// Takes the memory for so many further classes and dependencies.
    ///
    /// `AllocError` where memory was refused. Nothing has changed in either case but spares.
    pub(crate) fn room(&mut self, classes: usize, edges: usize) -> Result<(), AllocError>
        requires classes { self.old.graph.classes + classes ≤ MOST_GRAPH_CLASSES }
        ensures graph { self.new.graph
            ≡ with_spares self.old.graph self.new.graph.spare_classes self.new.graph.spare_edges }
        ensures rows { self.new.rows.items ≡ self.old.rows.items }
        ensures closing { self.new.closing ≡ self.old.closing }
        ensures spare_classes { OnOk result (classes ≤ self.new.graph.spare_classes) }
        ensures spare_edges { OnOk result (edges ≤ self.new.graph.spare_edges) }
        ensures spare_rows { OnOk result
            (vec_len self.new.rows + edges ≤ vec_capacity self.new.rows) }
        ensures hard { self.new.reach.hard
            ≡ record self.old.reach.hard { spare = self.new.reach.hard.spare } }
        ensures soft { self.new.reach.soft
            ≡ record self.old.reach.soft { spare = self.new.reach.soft.spare } }
        ensures spare_hard { OnOk result (classes ≤ self.new.reach.hard.spare) }
        ensures spare_soft { OnOk result (classes ≤ self.new.reach.soft.spare) }
        ensures exact { (edges : List Edge)
            → StayExact edges edges self.old.reach self.new.reach }
    {
        self.rows.reserve(edges)?;
        self.reach.room(classes)?;
        self.graph.room(classes, edges)
    }

    /// Adds classes until there are so many.
    pub(crate) fn enter_classes(&mut self, count: usize)
        requires fewer { self.old.graph.classes ≤ count }
        requires room { count ≤ self.old.graph.classes + self.old.graph.spare_classes }
        requires hard { count ≤ self.old.graph.classes + self.old.reach.hard.spare }
        requires soft { count ≤ self.old.graph.classes + self.old.reach.soft.spare }
        ensures count { self.new.graph.classes ≡ count }
        ensures edges { self.new.graph.edges ≡ self.old.graph.edges }
        ensures room { self.new.graph.spare_edges ≡ self.old.graph.spare_edges }
        ensures rows { self.new.rows ≡ self.old.rows }
        ensures closing { self.new.closing ≡ self.old.closing }
        ensures further { AreFurther self.old.reach self.new.reach }
        ensures exact { (edges : List Edge)
            → StayExact edges edges self.old.reach self.new.reach }
    {
        for _ in self.graph.len()..count {
            self.graph.add_class();
            self.reach.add_class();
        }
    }

    /// Notes that the dependency was seen there, unless it was seen earlier.
    fn note(&mut self, edge: Edge, witness: Witness)
        requires from { edge.from < self.old.graph.classes }
        requires to { edge.to < self.old.graph.classes }
        requires spare_edges { 0 < self.old.graph.spare_edges }
        requires spare_rows { vec_len self.old.rows < vec_capacity self.old.rows }
        ensures classes { self.new.graph.classes ≡ self.old.graph.classes }
        ensures spare_edges { self.old.graph.spare_edges ≤ self.new.graph.spare_edges + 1 }
        ensures spare_rows { (n : ℕ) → vec_len self.old.rows + (n + 1) ≤ vec_capacity self.old.rows
            → vec_len self.new.rows + n ≤ vec_capacity self.new.rows }
        ensures front { (n : ℕ) → n ≤ length self.old.rows.items
            → take n (edges_of self.new.rows.items) ≡ take n (edges_of self.old.rows.items) }
        ensures further { AreFurther self.old.reach self.new.reach }
        ensures exact { StayExact (edges_of self.old.rows.items) (edges_of self.new.rows.items)
            self.old.reach self.new.reach }
        ensures closing { IsCycleEdge (edges_of self.old.rows.items) self.old.closing
            → IsCycleEdge (edges_of self.new.rows.items) self.new.closing }
        ensures numbered { (classes : List PlainClass) → length classes ≡ self.old.graph.classes
            → AreBetween classes self.old.rows.items → AreBetween classes self.new.rows.items }
        ensures noted { (classes : List PlainClass) → length classes ≡ self.old.graph.classes
            → AreBetween classes self.old.rows.items
            → (first : Dependency → Option Witness)
            → AreWitnessed classes self.old.rows.items first
            → AreWitnessed classes self.new.rows.items
            (with_seen first (named_edge classes edge) witness) }
        ensures there { (n : ℕ) → witness.number < n
            → list_any (is_earlier edge n) self.new.rows.items ≡ true }
    {
        let mut steps = Steps::new();
        let (place, answer) = self.graph.insert_full(edge.from, edge.to, &mut steps);
        if let Insert::Known = answer {
            self.see(place as usize, edge, witness);
            return;
        }
        self.closing = closing_then(self.closing, edge, answer);
        self.reach.along(&self.graph, edge);
        self.rows.push_reserved(Witnessed {
            edge,
            first: witness,
        });
    }

    /// Notes that the dependency of this number was seen there, unless it was seen earlier.
    fn see(&mut self, number: usize, edge: Edge, witness: Witness)
        requires { IsEdgeNumber self.old.graph.edges edge.from edge.to number }
        ensures graph { self.new.graph ≡ self.old.graph }
        ensures closing { self.new.closing ≡ self.old.closing }
        ensures reach { self.new.reach ≡ self.old.reach }
        ensures spare { vec_capacity self.new.rows ≡ vec_capacity self.old.rows }
        ensures edges { edges_of self.new.rows.items ≡ edges_of self.old.rows.items }
        ensures numbered { (classes : List PlainClass)
            → AreBetween classes self.old.rows.items → AreBetween classes self.new.rows.items }
        ensures noted { (classes : List PlainClass) → AreBetween classes self.old.rows.items
            → (first : Dependency → Option Witness)
            → AreWitnessed classes self.old.rows.items first
            → AreWitnessed classes self.new.rows.items
            (with_seen first (named_edge classes edge) witness) }
        ensures there { (n : ℕ) → witness.number < n
            → list_any (is_earlier edge n) self.new.rows.items ≡ true }
    {
        let known = &mut self.rows[number];
        // Mostly the numbers of the traces tell it.
        if witness.number <= known.first.number {
            known.first = known.first.earlier(witness);
        }
    }

    /// Makes each class a seed of the state of which it got the bit that handlers acquire it.
    pub(crate) fn seed_all(&mut self, bits: &[NewBit])
        requires within { All (λ told. told.class < self.old.graph.classes) bits.now }
        requires one { All (λ told. IsBit told.bit) bits.now }
        ensures graph { self.new.graph ≡ self.old.graph }
        ensures rows { self.new.rows ≡ self.old.rows }
        ensures closing { self.new.closing ≡ self.old.closing }
        ensures further { AreFurther self.old.reach self.new.reach }
        ensures exact { (state : State) (seeds : List ℕ)
            → IsReach (IsEdge self.old.graph.edges) seeds (of_state self.old.reach state)
            → IsSeeded self.old.graph.edges seeds state bits.now
            (of_state self.new.reach state) }
    {
        self.reach.seed_all(&self.graph, bits);
    }
}

impl Dependencies {
    ghost use Rattle.ld_union.specs.Inner.Noted.{AreNoted};

    /// Notes the dependencies of a batch whose classes are among these names, each where it was seen first: those that
    /// no source behind it shows.
    pub(crate) fn add(&mut self, batch: &Shown<'_, '_>, names: &Classes<'_>, hints: &mut Hints)
        requires count { length names.now ≡ self.old.graph.classes }
        requires there { AreThere names.now batch.now.classes }
        requires spare_edges { length batch.now.edges ≤ self.old.graph.spare_edges }
        requires spare_rows { vec_len self.old.rows + length batch.now.edges
            ≤ vec_capacity self.old.rows }
        ensures batch { IsShown batch.now }
        ensures noted { AreNoted names.now batch.now.classes batch.now.edges self.old self.new }
        ensures witnesses { AreBetween names.now self.old.rows.items
            → (first : Dependency → Option Witness)
            → AreWitnessed names.now self.old.rows.items first
            → AreWitnessed names.now self.new.rows.items
            (with_first first
            (first_since dependency_witness batch.now.behind batch.now.sources)) }
    {
        let words = batch.words();
        for word in words.words {
            self.note_word(*word, &words, batch.classes(), names, hints);
        }
    }

    /// Notes the dependencies of a word between classes of a batch, which are among these names.
    fn note_word(
        &mut self,
        word: WitnessedWord,
        words: &Words<'_>,
        classes: &ClassList<'_>,
        names: &Classes<'_>,
        hints: &mut Hints,
    )
        requires count { length names.now ≡ self.old.graph.classes }
        requires there { AreThere names.now classes.now }
        requires low { IsBlock word.block }
        requires between { All (IsBetween classes.now) (edges_in words.now.places.now word) }
        requires spare_edges { length (edges_in words.now.places.now word) ≤ self.old.graph.spare_edges }
        requires spare_rows { vec_len self.old.rows + length (edges_in words.now.places.now word)
            ≤ vec_capacity self.old.rows }
        ensures { AreNoted names.now classes.now (edges_in words.now.places.now word) self.old self.new }
    {
        if word.bits == 0 {
            return;
        }
        let to = place_in(names, classes, words.place(word.to), word.to, hints);
        let mut left = word.bits;
        while left != 0 {
            let bit = left.trailing_zeros();
            let number = 64 * word.block + bit;
            let from = place_in(names, classes, words.place(number), number, hints);
            let edge = Edge { from, to };
            if !self.earlier.has(edge, word.witness.number) {
                self.note(edge, word.witness);
                self.earlier.add(edge, word.witness.number);
            }
            left &= !(1 << bit);
        }
    }
}

/// The edge with which the first cycle came, once the insert of an edge gave this answer.
fn closing_then(closing: Option<Edge>, edge: Edge, answer: Insert) -> Option<Edge>
    ensures { (old new : PlainGraph) → IsInserted old edge.from edge.to answer new
        → IsCycleEdge old.edges closing → IsCycleEdge new.edges result }
{
    match answer {
        Insert::Closed => Some(edge),
        _ => closing,
    }
}
