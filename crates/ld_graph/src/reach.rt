//! Which classes walks from some seeds lead to, kept while edges come.
ghost use Rattle.std.specs.Prelude.{◌≡◌, ◌⊎◌, ◌++◌, ◌∷◌, [], ℕ, List, ◌+◌, ◌<◌, ◌≤◌, ◌^◌, true, false};
ghost use Rattle.std.specs.Prelude.{◌↔◌, take, IsSome, All, Contains, OnOk, count_by, length};
ghost use Rattle.std.specs.Prelude.{nat_eq, slice_index_or, slice_set};
ghost use Rattle.std.specs.List.{IsDistinct};
ghost use Rattle.ld_graph.specs.Edges.{IsEdge, edge};
ghost use Rattle.ld_graph.specs.Inner.KeptReach.{AreExpanded, IsSpread, all_ahead, none_ahead};
ghost use Rattle.ld_graph.specs.Inner.Sources.{AreReached};
ghost use Rattle.ld_graph.specs.Lists.{IsNear};
ghost use Rattle.ld_graph.specs.Reach.{AreSuccessors, IsReach, mark_of, no_reach, source_of, with_unreached};
ghost use Rattle.ld_graph.specs.Walks.{HasWalk};

use crate::Edge;
use crate::graph::MOST_GRAPH_CLASSES;
use crate::lists::Reader;
use crate::marks::Marks;
use crate::sources::Sources;
use std::alloc::{AllocError, Global};
use std::marker::Model;

/// For each class of a graph a seed with a walk to it, kept while seeds, classes and edges come. A
/// class is expanded, which is to look at its successors, once in the life of a reach: when it is
/// first seeded or first reached.
#[derive(Drop)]
pub struct Reach {
    /// For each class a seed with a walk to it.
    sources: Sources,
    /// For each class whether it was expanded, and how many were.
    marks: Marks,
    spare: usize,
}

impl Model for Reach {
    ghost use Rattle.ld_graph.specs.Reach.{PlainReach};

    ghost Value = { PlainReach };

    ghost use Rattle.ld_graph.specs.Inner.KeptReach.{reach_of, IsReachKept};

    ghost view = { reach_of };

    ghost invariant = { IsReachKept };
}

impl Reach {
    /// No class and no seed. Takes no memory.
    pub fn new(alloc: Global) -> Reach
        ensures empty { result ≡ no_reach }
        ensures exact { (edges : List Edge) → IsReach (IsEdge edges) [] result }
    {
        Reach {
            sources: Sources::new(alloc),
            marks: Marks::new(alloc),
            spare: 0,
        }
    }

    /// The number of classes. Takes no memory.
    pub fn len(&self) -> usize
        ensures count { result ≡ length self.now.marks }
        ensures each { result ≡ length self.now.sources }
        ensures few { result ≤ MOST_GRAPH_CLASSES }
    {
        self.marks.len()
    }

    /// How many classes can be added without taking memory. Takes none itself.
    pub fn spare(&self) -> usize
        ensures { result ≡ self.now.spare }
    {
        self.spare
    }

    /// Takes the memory for so many further classes.
    ///
    /// # Errors
    ///
    /// `AllocError` where memory was refused. All answers are then as before, but the spare may have
    /// grown.
    pub fn room(&mut self, classes: usize) -> Result<(), AllocError>
        requires { length self.old.marks + classes ≤ MOST_GRAPH_CLASSES }
        ensures classes { OnOk result (classes ≤ self.new.spare) }
        ensures kept { self.old.spare ≤ self.new.spare }
        ensures same { self.new ≡ record self.old { spare = self.new.spare } }
        ensures each_once { self.new.expanded ≡ count_by (λ mark. mark) self.new.marks }
        ensures exact { (edges : List Edge) (seeds : List ℕ) → IsReach (IsEdge edges) seeds self.old
            → IsReach (IsEdge edges) seeds self.new }
    {
        self.sources.room(classes)?;
        self.marks.room(classes)?;
        self.spare = self.spare.max(classes);
        Ok(())
    }

    /// Adds a class, which takes a spare one. It has no edge yet. Takes no memory.
    pub fn add_class(&mut self)
        requires { 0 < self.old.spare }
        ensures class { self.new ≡ with_unreached self.old }
        ensures each_once { self.new.expanded ≡ count_by (λ mark. mark) self.new.marks }
        ensures stays { (x : ℕ) → mark_of self.old x ≡ true → mark_of self.new x ≡ true }
        ensures exact { (edges : List Edge) (seeds : List ℕ) → IsReach (IsEdge edges) seeds self.old
            → IsReach (IsEdge edges) seeds self.new }
    {
        self.sources.add_class();
        self.marks.add_class();
        self.spare -= 1;
    }

    /// Makes the class `c` a seed of the graph whose lists the reader gives. Each list that is read for it is that
    /// of a class that is expanded. Takes no memory.
    pub fn seed(&mut self, reader: &mut Reader<'_>, c: u32)
        requires classes { length reader.old.lists.after.lists ≡ length self.old.marks }
        requires ends { (x y : ℕ) → IsNear reader.old.lists.after.lists x y → y < length self.old.marks }
        requires class { c < length self.old.marks }
        requires steps { reader.old.count < 2 ^ 63 }
        ensures exact { (edges : List Edge) (seeds : List ℕ) → AreSuccessors reader.old.lists edges
            → IsReach (IsEdge edges) seeds self.old → IsReach (IsEdge edges) (seeds ++ c ∷ []) self.new }
        ensures lists { reader.new.lists ≡ reader.old.lists }
        ensures read { reader.new.count + self.old.expanded ≡ reader.old.count + self.new.expanded }
        ensures len { length self.new.marks ≡ length self.old.marks }
        ensures spare { self.new.spare ≡ self.old.spare }
        ensures front { take (length self.old.reached) self.new.reached ≡ self.old.reached }
        ensures stays { (x : ℕ) → mark_of self.old x ≡ true → mark_of self.new x ≡ true }
        ensures each_once { self.new.expanded ≡ count_by (λ mark. mark) self.new.marks }
    {
        let known = self.sources.count();
        if self.marks.is_on(c) {
            return;
        }
        expand(reader, c, c, &mut self.marks, &mut self.sources);
        spread(reader, known, &mut self.marks, &mut self.sources);
    }

    /// Follows the edge from `a` to `b`, which came last to the graph whose lists the reader gives. Each list that is
    /// read for it is that of a class that is expanded. Takes no memory.
    pub fn along(&mut self, reader: &mut Reader<'_>, a: u32, b: u32)
        requires classes { length reader.old.lists.after.lists ≡ length self.old.marks }
        requires ends { (x y : ℕ) → IsNear reader.old.lists.after.lists x y → y < length self.old.marks }
        requires from { a < length self.old.marks }
        requires to { b < length self.old.marks }
        requires steps { reader.old.count < 2 ^ 63 }
        ensures exact { (before : List Edge) (seeds : List ℕ)
            → AreSuccessors reader.old.lists (before ++ edge a b ∷ []) → IsReach (IsEdge before) seeds self.old
            → IsReach (IsEdge (before ++ edge a b ∷ [])) seeds self.new }
        ensures lists { reader.new.lists ≡ reader.old.lists }
        ensures read { reader.new.count + self.old.expanded ≡ reader.old.count + self.new.expanded }
        ensures len { length self.new.marks ≡ length self.old.marks }
        ensures spare { self.new.spare ≡ self.old.spare }
        ensures front { take (length self.old.reached) self.new.reached ≡ self.old.reached }
        ensures stays { (x : ℕ) → mark_of self.old x ≡ true → mark_of self.new x ≡ true }
        ensures each_once { self.new.expanded ≡ count_by (λ mark. mark) self.new.marks }
    {
        let known = self.sources.count();
        if !self.marks.is_on(a) {
            return;
        }
        let from = self.sources.source(a).unwrap_or(a);
        self.sources.give(b, from);
        spread(reader, known, &mut self.marks, &mut self.sources);
    }

    /// A seed with a walk of at least one edge to the class `c`, or `None` where there is none. Takes no
    /// memory.
    pub fn source(&self, c: u32) -> Option<u32>
        requires { c < length self.now.marks }
        ensures { result ≡ source_of self.now c }
    {
        self.sources.source(c)
    }

    /// The classes that have a source, each once, in the order in which they got it. Takes no memory.
    pub fn reached(&self) -> &[u32]
        ensures same { result.now ≡ self.now.reached }
        ensures within { All (λ c. c < length self.now.marks) self.now.reached }
        ensures each { (c : ℕ) → Contains self.now.reached c ↔ IsSome (source_of self.now c) }
        ensures once { IsDistinct nat_eq self.now.reached }
    {
        self.sources.reached()
    }

    /// How often a class was expanded so far: no class twice. Takes no memory.
    pub fn expanded(&self) -> u64
        ensures count { result ≡ self.now.expanded }
        ensures each_once { result ≡ count_by (λ mark. mark) self.now.marks }
        ensures few { result ≤ length self.now.marks }
    {
        self.marks.count()
    }
}

/// Expands a class: gives this source to its successors.
fn expand(reader: &mut Reader<'_>, class: u32, from: u32, marks: &mut Marks, sources: &mut Sources)
    requires lists { length reader.old.lists.after.lists ≡ length marks.old.each }
    requires ends { (x y : ℕ) → IsNear reader.old.lists.after.lists x y → y < length marks.old.each }
    requires same { length sources.old.each ≡ length marks.old.each }
    requires class { class < length marks.old.each }
    requires fresh { slice_index_or marks.old.each class false ≡ false }
    requires few { reader.old.count + 1 < 2 ^ 64 }
    ensures expanded { AreExpanded reader.old marks.old sources.old reader.new marks.new sources.new }
    ensures marks { marks.new.each ≡ slice_set marks.old.each class true }
    ensures spread { (done : ℕ) (seeds : List ℕ) → done ≤ length sources.old.reached
        → IsSpread (IsNear reader.old.lists.after.lists) seeds
        (all_ahead (IsNear reader.old.lists.after.lists) class) sources.old.each
        (slice_set marks.old.each class true) sources.old.reached done
        → Contains seeds from × ((from ≡ class) ⊎ HasWalk (IsNear reader.old.lists.after.lists) from class)
        → IsSpread (IsNear reader.old.lists.after.lists) seeds none_ahead sources.new.each marks.new.each
        sources.new.reached done }
{
    for &next in marks.once(class, reader) {
        sources.give(next, from);
    }
}

/// Expands the classes that were reached, from number `known` on, and those that are reached by this.
fn spread(reader: &mut Reader<'_>, known: usize, marks: &mut Marks, sources: &mut Sources)
    requires lists { length reader.old.lists.after.lists ≡ length marks.old.each }
    requires known { known ≤ length sources.old.reached }
    requires ends { (x y : ℕ) → IsNear reader.old.lists.after.lists x y → y < length marks.old.each }
    requires same { length sources.old.each ≡ length marks.old.each }
    requires steps { reader.old.count + length marks.old.each + 1 < 2 ^ 64 + marks.old.count }
    requires counted { marks.old.count ≡ count_by (λ m. m) marks.old.each }
    ensures expanded { AreExpanded reader.old marks.old sources.old reader.new marks.new sources.new }
    ensures listed { AreReached sources.new.each sources.new.reached }
    ensures spread { (seeds : List ℕ)
        → IsSpread (IsNear reader.old.lists.after.lists) seeds none_ahead sources.old.each marks.old.each
        sources.old.reached known
        → IsSpread (IsNear reader.old.lists.after.lists) seeds none_ahead sources.new.each marks.new.each
        sources.new.reached (length sources.new.reached) }
{
    let mut done = known;
    while done < sources.count() {
        let class = sources.reached_at(done);
        done += 1;
        if !marks.is_on(class) {
            let Some(from) = sources.source(class) else {
                unreachable!()
            };
            expand(reader, class, from, marks, sources);
        }
    }
}
