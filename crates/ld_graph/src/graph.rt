//! The graph itself.

ghost use Rattle.std.specs.Prelude.{◌≡◌, ◌≢◌, ℕ, ◌+◌, ◌-◌, ◌<◌, ◌≤◌, ◌^◌, ◌↔◌, length, slice_get};
ghost use Rattle.std.specs.Prelude.{slice_index_or, None, Some, IfOk, IsTrue};
ghost use Rattle.std.specs.Prelude.{All, OnOk, MatchOption, true, false};
ghost use Rattle.ld_graph.specs.Components.{AreComponents};
ghost use Rattle.ld_graph.specs.Edges.{ComesBefore, IsEdge, IsEdgeNumber};
ghost use Rattle.ld_graph.specs.Edges.{empty_graph, with_class, with_edge, with_spares};
ghost use Rattle.ld_graph.specs.Lists.{IsNear};
ghost use Rattle.ld_graph.specs.Order.{HasCycle, IsInserted, IsOrder, TellsSteps};
ghost use Rattle.ld_graph.specs.Walks.{AreEnough, DistanceIs, HasWalk, IsShownWalk, Reaches};

use crate::Edge;
use crate::components::components_of;
use crate::distance::Distance;
use crate::inside::Distances;
use crate::lists::{Counting, Lists, Steps};
use crate::ranks::{Insert, Ranks, place};
use crate::shown::show;
use indexmap::IndexSet;
use std::alloc::{AllocError, Global};
use std::marker::{Brand, Model};

/// How many classes a graph may have, with its spare ones.
pub const MOST_GRAPH_CLASSES: usize = 1 << 30;

// Clauses cite the constant, so they would hold with any other number that fits.
const _: () = prove!(MOST_GRAPH_CLASSES == 1_073_741_824);

/// A directed graph whose classes are the numbers from 0 on.
#[derive(Drop)]
pub struct Graph<C: Counting = Brand> {
    edges: IndexSet<Edge>,
    lists: Lists<C>,
    /// The ranks, which are repaired so long as there is no cycle.
    ranks: Ranks,
    has_cycle: bool,
    classes: usize,
    spare_classes: usize,
    spare_edges: usize,
}

impl<C: Counting> Model for Graph<C> {
    ghost use Rattle.ld_graph.specs.Edges.{PlainGraph};

    ghost Value = { PlainGraph };

    ghost use Rattle.ld_graph.specs.Inner.Kept.{graph_of, IsKept};

    ghost view = { graph_of };

    ghost invariant = { IsKept };
}

impl Graph {
    /// A graph with no class and no edge. Takes no memory.
    pub fn new(alloc: Global) -> Graph
        ensures { result ≡ empty_graph }
    {
        Graph {
            edges: IndexSet::new(alloc),
            lists: Lists::new(alloc),
            ranks: Ranks::new(alloc),
            has_cycle: false,
            classes: 0,
            spare_classes: 0,
            spare_edges: 0,
        }
    }

    /// The number of classes. Takes no memory.
    pub fn len(&self) -> usize
        ensures count { result ≡ self.now.classes }
        ensures few { result ≤ MOST_GRAPH_CLASSES }
    {
        self.classes
    }

    /// The number of edges. Takes no memory.
    pub fn edges(&self) -> u64
        ensures count { result ≡ length self.now.edges }
        ensures ends { (a b : ℕ) → IsEdge self.now.edges a b
            → (a < self.now.classes) × (b < self.now.classes) }
        ensures once { (i j : ℕ) → i < j → j < length self.now.edges
            → slice_get self.now.edges i ≢ slice_get self.now.edges j }
    {
        self.edges.len() as u64
    }

    /// The lists of successors and predecessors. Takes no memory.
    pub fn lists(&self) -> &Lists
        ensures classes { (length result.now.after.lists ≡ self.now.classes)
            × (length result.now.before.lists ≡ self.now.classes) }
        ensures after { (x y : ℕ) → IsNear result.now.after.lists x y ↔ IsEdge self.now.edges x y }
        ensures before { (x y : ℕ) →
            IsNear result.now.before.lists x y ↔ IsEdge self.now.edges y x }
        ensures ends { (x y : ℕ) → IsEdge self.now.edges x y
            → (x < self.now.classes) × (y < self.now.classes) }
    {
        &self.lists
    }

    /// How many classes can be added without taking memory. Takes none itself.
    pub fn spare_classes(&self) -> usize
        ensures { result ≡ self.now.spare_classes }
    {
        self.spare_classes
    }

    /// How many edges can be inserted without taking memory. Takes none itself.
    pub fn spare_edges(&self) -> usize
        ensures { result ≡ self.now.spare_edges }
    {
        self.spare_edges
    }

    /// Takes the memory for so many further classes and edges.
    ///
    /// # Errors
    ///
    /// `AllocError` where memory was refused. The graph is then as before, but the spares may have
    /// grown.
    pub fn room(&mut self, classes: usize, edges: usize) -> Result<(), AllocError>
        requires { self.old.classes + classes ≤ MOST_GRAPH_CLASSES }
        ensures classes { OnOk result (classes ≤ self.new.spare_classes) }
        ensures edges { OnOk result (edges ≤ self.new.spare_edges) }
        ensures same { self.new ≡ with_spares self.old self.new.spare_classes self.new.spare_edges }
        ensures kept { (self.old.spare_classes ≤ self.new.spare_classes)
            × (self.old.spare_edges ≤ self.new.spare_edges) }
    {
        self.edges.reserve(edges)?;
        self.lists.room(classes, edges)?;
        self.ranks.room(self.classes + classes)?;
        self.spare_classes = self.spare_classes.max(classes);
        self.spare_edges = self.spare_edges.max(edges);
        Ok(())
    }

    /// Adds a class, which takes a spare one and gets the last rank, and answers its number. Takes no memory.
    pub fn add_class(&mut self) -> u32
        requires { 0 < self.old.spare_classes }
        ensures number { result ≡ self.old.classes }
        ensures graph { self.new ≡ with_class self.old }
    {
        let number = self.classes;
        self.lists.add_class();
        self.ranks.add_class();
        self.classes += 1;
        self.spare_classes -= 1;
        number as u32
    }

    /// The edge's number in order of insertion, from 0 on, or `None` where there is no such edge.
    /// Takes no memory.
    pub fn edge(&self, a: u32, b: u32) -> Option<u64>
        ensures { MatchOption result (¬ IsEdge self.now.edges a b)
            (IsEdgeNumber self.now.edges a b) }
    {
        let number = self.edges.get_index_of(&Edge { from: a, to: b })?;
        Some(number as u64)
    }

    /// Whether there is a cycle. Takes no memory.
    pub fn has_cycle(&self) -> bool
        ensures cycle { IsTrue result ↔ HasCycle (IsEdge self.now.edges) }
    {
        self.has_cycle
    }

    /// For each class a class of its component, the same one for all of a component: two classes have the
    /// same exactly where they are one, or walks lead both ways between them. In time linear in the
    /// classes and edges.
    ///
    /// # Errors
    ///
    /// `AllocError` where memory was refused.
    pub fn components(&self, alloc: Global) -> Result<Vec<u32>, AllocError>
        ensures { IfOk result (λ components.
            AreComponents (IsEdge self.now.edges) self.now.classes components.items) }
    {
        let components = components_of(alloc, &self.lists, self.len())?;
        Ok(components)
    }

    /// For each class the least number of edges, at least one, of a walk from it to `to`, or `None`
    /// where there is no such walk.
    ///
    /// # Errors
    ///
    /// `AllocError` where memory was refused.
    pub fn distances(&self, alloc: Global, to: u32) -> Result<Vec<Distance>, AllocError>
        requires { to < self.now.classes }
        ensures len { IfOk result (λ distances. length distances.items ≡ self.now.classes) }
        ensures each { IfOk result (λ distances. (c : ℕ) →
            DistanceIs (IsEdge self.now.edges) c to (slice_index_or distances.items c None)) }
    {
        let mut all = Vec::with_capacity(alloc, self.len())?;
        for class in 0..self.len() as u32 {
            all.push(class)?;
        }
        let mut distances = Distances::new(alloc, self.len())?;
        distances.search(&self.lists, None, &all, to);
        Ok(distances.into_levels())
    }

    /// Of what `distances` gives, for each of the wanted classes that `to` reaches as much as `walk_along` needs for the
    /// walk from it, by a search that stays in the component of `to` and ends where the last of them was found. The list
    /// is the same for many searches. Takes no memory.
    pub fn distances_inside(
        &self,
        to: u32,
        components: &[u32],
        wanted: &[u32],
        distances: &mut Distances,
    )
        requires to { to < self.now.classes }
        requires components { AreComponents (IsEdge self.now.edges) self.now.classes components.now }
        requires wanted { All (λ c. c < self.now.classes) wanted.now }
        requires classes { length distances.old ≡ self.now.classes }
        ensures len { length distances.new ≡ self.now.classes }
        ensures enough { All (λ c. Reaches (IsEdge self.now.edges) to c
            → AreEnough (IsEdge self.now.edges) c to (λ x. slice_index_or distances.new x None)) wanted.now }
    {
        distances.search(&self.lists, Some(components), wanted, to);
    }

    /// A shortest walk from `a` to `b`, or `None` where there is none. Each next class but the last
    /// is, of the successors that are one edge nearer to `b`, the one of least place, and of equal
    /// places that of the lesser number.
    ///
    /// # Errors
    ///
    /// `AllocError` where memory was refused.
    pub fn walk(
        &self,
        alloc: Global,
        a: u32,
        b: u32,
        places: &[u32],
    ) -> Result<Option<Vec<u32>>, AllocError>
        requires a { a < self.now.classes }
        requires b { b < self.now.classes }
        requires places { length places.now ≡ self.now.classes }
        ensures { IfOk result (λ walk. MatchOption walk (¬ HasWalk (IsEdge self.now.edges) a b)
            (λ w. IsShownWalk (IsEdge self.now.edges) (ComesBefore places.now) a b w.items)) }
    {
        let mut distances = Distances::new(alloc, self.len())?;
        distances.search(&self.lists, None, &[a], b);
        self.walk_along(alloc, a, b, distances.levels(), places)
    }

    /// The walk from `a` to `b` that `walk` gives, by the distances to `b` that `distances` gave, or `distances_inside`
    /// where `a` was wanted and `b` reaches it. So one search serves the walks from many classes to one.
    ///
    /// # Errors
    ///
    /// `AllocError` where memory was refused.
    pub fn walk_along(
        &self,
        alloc: Global,
        a: u32,
        b: u32,
        distances: &[Distance],
        places: &[u32],
    ) -> Result<Option<Vec<u32>>, AllocError>
        requires a { a < self.now.classes }
        requires len { length distances.now ≡ self.now.classes }
        requires enough { AreEnough (IsEdge self.now.edges) a b
            (λ c. slice_index_or distances.now c None) }
        requires places { length places.now ≡ self.now.classes }
        ensures { IfOk result (λ walk. MatchOption walk (¬ HasWalk (IsEdge self.now.edges) a b)
            (λ w. IsShownWalk (IsEdge self.now.edges) (ComesBefore places.now) a b w.items)) }
    {
        let Some(distance) = distances[a as usize].get() else {
            return Ok(None);
        };
        let walk = show(alloc, &self.lists, a, b, distance, distances, places)?;
        Ok(Some(walk))
    }
}

impl<C: Counting> Graph<C> {
    ghost use Rattle.std.specs.Borrow.{sem};
    ghost use Rattle.ld_graph.specs.Lending.{StaysAs};

    /// Inserts the edge from `a` to `b`, which takes a spare one. So long as there is no cycle, all ranks stand
    /// where `a` is ranked below `b`. Else those from the rank of `b` to that of `a` are repaired, or the edge
    /// closes a cycle, and from then on there is no order. An edge that is there already changes nothing.
    /// What is read for it is added to `steps`: as many lists as `Moved` tells. Takes no memory.
    pub fn insert(&mut self, a: u32, b: u32, steps: &mut Steps<C>) -> Insert
        requires a { a < self.old.classes }
        requires b { b < self.old.classes }
        requires room { 0 < self.old.spare_edges }
        requires steps { steps.old < 2 ^ 63 }
        ensures told { TellsSteps self.old.classes result steps.old steps.new }
        ensures inserted { IsInserted self.old a b result self.new }
        ensures new { (¬ IsEdge self.old.edges a b)
            → self.new ≡ with_edge self.old a b self.new.order }
    {
        if self.edges.contains(&Edge { from: a, to: b }) {
            return Insert::Known;
        }
        let (_, answer) = self.insert_full(a, b, steps);
        answer
    }

    /// Inserts the edge as `insert` does, and answers its number too: one look-up tells that and whether it was
    /// there. It takes a spare edge also where it was. Takes no memory.
    pub fn insert_full(&mut self, a: u32, b: u32, steps: &mut Steps<C>) -> (u64, Insert)
        requires a { a < self.old.classes }
        requires b { b < self.old.classes }
        requires room { 0 < self.old.spare_edges }
        requires steps { steps.old < 2 ^ 63 }
        ensures told { TellsSteps self.old.classes result.1 steps.old steps.new }
        ensures number { IsEdgeNumber self.new.edges a b result.0 }
        ensures there { (result.1 ≡ Insert.Known) ↔ IsEdge self.old.edges a b }
        ensures same { result.1 ≡ Insert.Known
            → self.new ≡ with_spares self.old self.old.spare_classes (self.old.spare_edges - 1) }
        ensures inserted { result.1 ≢ Insert.Known → IsInserted self.old a b result.1 self.new }
        ensures new { result.1 ≢ Insert.Known → self.new ≡ with_edge self.old a b self.new.order }
    {
        let Ok((number, added)) = self.edges.insert_full(Edge { from: a, to: b }) else {
            unreachable!()
        };
        self.spare_edges -= 1;
        if !added {
            return (number as u64, Insert::Known);
        }
        let answer = place(
            &self.lists,
            steps,
            &mut self.ranks,
            &mut self.has_cycle,
            a,
            b,
        );
        self.lists.push(a, b);
        (number as u64, answer)
    }

    /// The rank of each class, or `None` where there is a cycle. Where there is none, the ranks are an order: the
    /// numbers from 0 on, each once, and every edge goes from a lesser to a greater one. Takes no memory.
    pub fn order(&mut self) -> Option<&[u32]>
        ensures* same { sem 𝓛 (StaysAs C.row C.Counting self.entry) }
        ensures order { MatchOption result (HasCycle (IsEdge self.old.edges))
            (λ ranks. IsOrder (IsEdge self.old.edges) self.old.classes ranks.now) }
        ensures value { MatchOption result (self.old.order ≡ None) (λ ranks. self.old.order ≡ Some ranks.now) }
    {
        if self.has_cycle {
            return None;
        }
        Some(self.ranks.list())
    }
}
