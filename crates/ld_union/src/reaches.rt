//! For each interrupt state, which classes walks lead to from those that handlers of the state acquire.
ghost use Rattle.std.specs.Prelude.{◌≡◌, ◌++◌, ◌∷◌, [], ℕ, List, ◌+◌, ◌<◌, ◌≤◌, All, Contains, IsSome, OnOk, length};
ghost use Rattle.ld_graph.specs.Edges.{IsEdge};
ghost use Rattle.ld_graph.specs.declared.graph.TheConstants.{MOST_GRAPH_CLASSES};
ghost use Rattle.ld_graph.specs.Reach.{IsReach, no_reach, source_of, with_unreached};
ghost use Rattle.ld_rules.specs.Usage.{IsBit};
ghost use Rattle.ld_union.specs.Inner.Reached.{AreFurther, HaveClasses, IsSeeded, StayExact};
ghost use Rattle.ld_union.specs.Inner.States.{of_state};

use crate::delta::NewBit;
use ld_class::Usage;
use ld_graph::{Edge, Graph, Reach, Reader};
use ld_trace::State;
use std::alloc::{AllocError, Global};

/// One for each of the two states.
#[derive(Clone, Copy, Debug, Drop, PartialEq, Eq)]
pub struct PerState<T> {
    /// That of hard.
    pub hard: T,
    /// That of soft.
    pub soft: T,
}

impl<T: Copy> PerState<T> {
    /// That of the state.
    pub fn get(&self, state: State) -> T
        ensures { result ≡ of_state self.now state }
    {
        match state {
            State::Hard => self.hard,
            State::Soft => self.soft,
        }
    }
}

impl PerState<Reach> {
    /// Those of no class.
    pub(crate) fn new(alloc: Global) -> PerState<Reach>
        ensures hard { result.hard ≡ no_reach }
        ensures soft { result.soft ≡ no_reach }
        ensures exact { (state : State) → IsReach (IsEdge []) [] (of_state result state) }
    {
        PerState {
            hard: Reach::new(alloc),
            soft: Reach::new(alloc),
        }
    }

    /// Takes the memory for so many further classes.
    ///
    /// `AllocError` where memory was refused. Nothing has changed in either case but spares.
    pub(crate) fn room(&mut self, classes: usize) -> Result<(), AllocError>
        requires hard { length self.old.hard.marks + classes ≤ MOST_GRAPH_CLASSES }
        requires soft { length self.old.soft.marks + classes ≤ MOST_GRAPH_CLASSES }
        ensures hard { self.new.hard ≡ record self.old.hard { spare = self.new.hard.spare } }
        ensures soft { self.new.soft ≡ record self.old.soft { spare = self.new.soft.spare } }
        ensures classes { (count : ℕ) → HaveClasses count self.old → HaveClasses count self.new }
        ensures spare_hard { OnOk result (classes ≤ self.new.hard.spare) }
        ensures spare_soft { OnOk result (classes ≤ self.new.soft.spare) }
        ensures exact { (edges : List Edge) → StayExact edges edges self.old self.new }
    {
        self.hard.room(classes)?;
        self.soft.room(classes)
    }

    /// Adds a class.
    pub(crate) fn add_class(&mut self)
        requires hard { 0 < self.old.hard.spare }
        requires soft { 0 < self.old.soft.spare }
        ensures hard { self.new.hard ≡ with_unreached self.old.hard }
        ensures soft { self.new.soft ≡ with_unreached self.old.soft }
        ensures classes { (count : ℕ) → HaveClasses count self.old
            → HaveClasses (count + 1) self.new }
        ensures further { AreFurther self.old self.new }
        ensures exact { (edges : List Edge) → StayExact edges edges self.old self.new }
    {
        self.hard.add_class();
        self.soft.add_class();
    }

    /// Follows the edge, which came to the graph last.
    pub(crate) fn along(&mut self, graph: &Graph, edge: Edge)
        requires classes { HaveClasses graph.now.classes self.old }
        requires from { edge.from < graph.now.classes }
        requires to { edge.to < graph.now.classes }
        ensures classes { HaveClasses graph.now.classes self.new }
        ensures exact { (before : List Edge)
            → graph.now.edges ≡ before ++ edge ∷ []
            → StayExact before graph.now.edges self.old self.new }
        ensures further { AreFurther self.old self.new }
    {
        self.hard
            .along(&mut Reader::new(graph.lists()), edge.from, edge.to);
        self.soft
            .along(&mut Reader::new(graph.lists()), edge.from, edge.to);
    }

    /// Makes each class a seed of the state of which it got the bit that handlers acquire it.
    pub(crate) fn seed_all(&mut self, graph: &Graph, bits: &[NewBit])
        requires classes { HaveClasses graph.now.classes self.old }
        requires within { All (λ told. told.class < graph.now.classes) bits.now }
        requires one { All (λ told. IsBit told.bit) bits.now }
        ensures classes { HaveClasses graph.now.classes self.new }
        ensures exact { (state : State) (seeds : List ℕ)
            → IsReach (IsEdge graph.now.edges) seeds (of_state self.old state)
            → IsSeeded graph.now.edges seeds state bits.now (of_state self.new state) }
        ensures further { AreFurther self.old self.new }
    {
        for told in bits {
            self.seed(graph, *told);
        }
    }

    /// Makes the class a seed, where this is the bit that handlers of a state acquire it.
    fn seed(&mut self, graph: &Graph, told: NewBit)
        requires classes { HaveClasses graph.now.classes self.old }
        requires within { told.class < graph.now.classes }
        requires one { IsBit told.bit }
        ensures classes { HaveClasses graph.now.classes self.new }
        ensures exact { (state : State) (seeds : List ℕ) (before : List NewBit)
            → IsSeeded graph.now.edges seeds state before (of_state self.old state)
            → IsSeeded graph.now.edges seeds state (before ++ told ∷ [])
            (of_state self.new state) }
        ensures further { AreFurther self.old self.new }
    {
        if told.bit == Usage::IN_HARD {
            self.hard.seed(&mut Reader::new(graph.lists()), told.class);
        } else if told.bit == Usage::IN_SOFT {
            self.soft.seed(&mut Reader::new(graph.lists()), told.class);
        }
    }

    /// How many classes each has reached.
    pub(crate) fn counts(&self) -> PerState<usize>
        ensures hard { result.hard ≡ length self.now.hard.reached }
        ensures soft { result.soft ≡ length self.now.soft.reached }
        ensures sources { (state : State) (class : ℕ)
            → Contains (of_state self.now state).reached class
            → IsSome (source_of (of_state self.now state) class) }
    {
        PerState {
            hard: self.hard.reached().len(),
            soft: self.soft.reached().len(),
        }
    }
}
