//! A walk through a graph, deep before wide, that finds which classes are in one component. It knows of
//! each class on its way how far back a walk from there leads, so that it sees where a component ends.
ghost use Rattle.std.specs.Prelude.{◌≡◌, ◌⊎◌, ◌↔◌, ◌+◌, ◌<◌, ◌≤◌, ◌^◌, ℕ, List, [], length, take, replicate, count_by, OnOk, IfOk};
ghost use Rattle.std.specs.Prelude.{IsTrue, slice_index_or};
ghost use Rattle.ld_graph.specs.declared.trail.Stage.TheVariants.{Fresh, Open, Closed};
ghost use Rattle.ld_graph.specs.Inner.Trails.{IsHandled, IsToldFrom, IsTrail, PlainTrail, advanced, entered, is_fresh, next_at};
ghost use Rattle.ld_graph.specs.Inner.Trails.{returned, shown, stage_at, told, top_of, last_of, frame_at, wait_at, work};
ghost use Rattle.ld_graph.specs.Lists.{IsNear, list_at};

use crate::lists::{Lists, Reader};
use std::alloc::{AllocError, Global};

/// How far a class has come.
#[derive(Clone, Copy)]
pub(crate) enum Stage {
    /// It wasn't met yet.
    Fresh,
    /// It waits at this place for the rest of its component.
    Open(usize),
    /// Its component is known, by this class of it.
    Closed(u32),
}

/// A class on the way from the class that the walk began at to where it stands.
#[derive(Clone, Copy)]
pub(crate) struct Frame {
    class: u32,
    /// Where the class waits.
    position: usize,
    /// The first place of a waiting class that a walk from here is known to lead to.
    low: usize,
}

/// What the walk knows.
#[derive(Drop)]
pub(crate) struct Trail {
    /// For each class how far it has come.
    stages: Vec<Stage>,
    /// For each class how many of its successors were looked at.
    nexts: Vec<usize>,
    /// The classes that were met and whose component isn't known yet, in the order in which they were met.
    waiting: Vec<u32>,
    /// The way to where the walk stands.
    path: Vec<Frame>,
}

impl Trail {
    /// Of so many classes none was met.
    pub(crate) fn new(alloc: Global, classes: usize) -> Result<Trail, AllocError>
        ensures trail { IfOk result (λ t. (lists : List (List ℕ)) → length lists ≡ classes
            → IsTrail lists (shown t)) }
        ensures path { IfOk result (λ t. t.path.items ≡ []) }
    {
        let mut stages = Vec::new(alloc);
        stages.resize(classes, Stage::Fresh)?;
        let mut nexts = Vec::new(alloc);
        nexts.resize(classes, 0)?;
        Ok(Trail {
            stages,
            nexts,
            waiting: Vec::new(alloc),
            path: Vec::new(alloc),
        })
    }

    /// Whether the class wasn't met yet.
    pub(crate) fn is_fresh(&self, class: u32) -> bool
        requires { class < length self.now.stages.items }
        ensures { IsTrue result ↔ (stage_at (shown self.now) class ≡ Fresh) }
    {
        matches!(self.stages[class as usize], Stage::Fresh)
    }

    /// Meets the class, which waits from now on, and goes on from there.
    pub(crate) fn enter(&mut self, class: u32) -> Result<(), AllocError>
        requires { class < length self.old.stages.items }
        ensures { OnOk result (shown self.new ≡ entered (shown self.old) class) }
    {
        let position = self.waiting.len();
        self.waiting.push(class)?;
        self.path.push(Frame {
            class,
            position,
            low: position,
        })?;
        self.stages[class as usize] = Stage::Open(position);
        Ok(())
    }

    /// The last class of the way.
    fn top(&self) -> Frame
        requires { 0 < length self.now.path.items }
        ensures { result ≡ top_of (shown self.now) }
    {
        self.path[self.path.len() - 1]
    }

    /// Takes note of one more successor of the class where the walk stands.
    fn advance(&mut self, low: usize)
        requires some { 0 < length self.old.path.items }
        requires class { (top_of (shown self.old)).class < length self.old.nexts.items }
        requires fits { next_at (shown self.old) (top_of (shown self.old)).class + 1 < 2 ^ 64 }
        ensures { shown self.new ≡ advanced (shown self.old) low }
    {
        let last = self.path.len() - 1;
        let class = self.path[last].class;
        self.path[last].low = low;
        self.nexts[class as usize] += 1;
    }

    /// Goes back to the class before, to which a walk from the other one leads.
    fn turn_back(&mut self, low: usize)
        requires { 1 < length self.old.path.items }
        ensures { shown self.new ≡ returned (shown self.old) low }
    {
        let Some(_) = self.path.pop() else {
            unreachable!()
        };
        let last = self.path.len() - 1;
        self.path[last].low = low;
    }

    /// Tells the component of the last class of the way, which is that class's, and goes back.
    fn tell(&mut self)
        requires some { 0 < length self.old.path.items }
        requires position { (top_of (shown self.old)).position ≤ length self.old.waiting.items }
        requires stages { (i : ℕ) → i < length self.old.waiting.items
            → stage_at (shown self.old) (wait_at (shown self.old) i) ≡ Open i }
        ensures told { shown self.new ≡ told (shown self.old) self.new.stages.items }
        ensures stages { IsToldFrom self.old.waiting.items (top_of (shown self.old)).position
            (top_of (shown self.old)).class self.old.stages.items self.new.stages.items }
        ensures count { count_by is_fresh self.new.stages.items
            ≡ count_by is_fresh self.old.stages.items }
    {
        let Some(top) = self.path.pop() else {
            unreachable!()
        };
        while self.waiting.len() > top.position {
            let Some(class) = self.waiting.pop() else {
                unreachable!()
            };
            self.stages[class as usize] = Stage::Closed(top.class);
        }
    }

    /// Leaves the class where the walk stands, whose successors were all looked at.
    fn leave(&mut self, lists: &Lists)
        requires trail { IsTrail lists.now.after.lists (shown self.old) }
        requires some { 0 < length self.old.path.items }
        requires done { length (list_at lists.now.after.lists (top_of (shown self.old)).class)
            ≤ next_at (shown self.old) (top_of (shown self.old)).class }
        ensures trail { IsTrail lists.now.after.lists (shown self.new) }
        ensures less { work lists.now.after.lists (shown self.new)
            < work lists.now.after.lists (shown self.old) }
        ensures met { (x : ℕ) → stage_at (shown self.new) x ≡ Fresh
            → stage_at (shown self.old) x ≡ Fresh }
    {
        let top = self.top();
        if top.low == top.position {
            self.tell();
            return;
        }
        let before = self.path[self.path.len() - 2].low;
        if top.low < before {
            self.turn_back(top.low);
        } else {
            self.turn_back(before);
        }
    }

    /// Looks at the next successor of the class where the walk stands, or leaves that class.
    fn go_on(&mut self, lists: &Lists) -> Result<(), AllocError>
        requires trail { IsTrail lists.now.after.lists (shown self.old) }
        requires ends { (x y : ℕ) → IsNear lists.now.after.lists x y
            → y < length lists.now.after.lists }
        requires some { 0 < length self.old.path.items }
        ensures trail { OnOk result (IsTrail lists.now.after.lists (shown self.new)) }
        ensures less { OnOk result (work lists.now.after.lists (shown self.new)
            < work lists.now.after.lists (shown self.old)) }
        ensures met { OnOk result ((x : ℕ) → stage_at (shown self.new) x ≡ Fresh
            → stage_at (shown self.old) x ≡ Fresh) }
    {
        let top = self.top();
        let near = Reader::new(lists).after(top.class);
        let next = self.nexts[top.class as usize];
        if next >= near.len() {
            self.leave(lists);
            return Ok(());
        }
        let to = near[next];
        match self.stages[to as usize] {
            Stage::Fresh => self.enter(to)?,
            Stage::Open(position) if position < top.low => self.advance(position),
            _ => self.advance(top.low),
        }
        Ok(())
    }

    /// Goes on until the walk has left the class that it began at.
    pub(crate) fn explore(&mut self, lists: &Lists) -> Result<(), AllocError>
        requires trail { IsTrail lists.now.after.lists (shown self.old) }
        requires ends { (x y : ℕ) → IsNear lists.now.after.lists x y
            → y < length lists.now.after.lists }
        ensures trail { OnOk result (IsTrail lists.now.after.lists (shown self.new)) }
        ensures path { OnOk result (length self.new.path.items ≡ 0) }
        ensures met { OnOk result ((x : ℕ) → stage_at (shown self.new) x ≡ Fresh
            → stage_at (shown self.old) x ≡ Fresh) }
    {
        while !self.path.is_empty() {
            self.go_on(lists)?;
        }
        Ok(())
    }

    /// For each class a class of its component, where all of them are known.
    pub(crate) fn known(&self, alloc: Global) -> Result<Vec<u32>, AllocError>
        requires { (x : ℕ) → x < length self.now.stages.items
            → (r : ℕ) × (stage_at (shown self.now) x ≡ Closed r) }
        ensures len { IfOk result (λ known. length known.items ≡ length self.now.stages.items) }
        ensures each { IfOk result (λ known. (x : ℕ) → x < length self.now.stages.items
            → stage_at (shown self.now) x ≡ Closed (slice_index_or known.items x 0)) }
    {
        let mut known = Vec::with_capacity(alloc, self.stages.len())?;
        for stage in &self.stages {
            let Stage::Closed(class) = *stage else {
                unreachable!()
            };
            known.push(class)?;
        }
        Ok(known)
    }
}
