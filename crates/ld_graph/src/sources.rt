//! The sources of a reach.

ghost use Rattle.std.specs.Prelude.{◌≡◌, ◌↔◌, ℕ, ◌+◌, ◌<◌, ◌≤◌, [], ◌∷◌, ◌++◌, All, Contains, IsSome, None, OnOk};
ghost use Rattle.std.specs.Prelude.{length, nat_eq, slice_index_or};
ghost use Rattle.std.specs.List.{IsDistinct};
ghost use Rattle.ld_graph.specs.Inner.Sources.{AreReached, IsGiven};

use crate::graph::MOST_GRAPH_CLASSES;
use std::alloc::{AllocError, Global};
use std::marker::Model;

/// For each class a seed with a walk to it, if there is one, and the classes that have such a source.
#[derive(Drop)]
pub struct Sources {
    each: Vec<Option<u32>>,
    /// The classes that have a source, in the order in which they got it.
    reached: Vec<u32>,
    /// For how many classes there is memory.
    room: usize,
}

impl Model for Sources {
    ghost use Rattle.ld_graph.specs.Inner.Sources.{Sourced};

    ghost Value = { Sourced };

    ghost use Rattle.ld_graph.specs.Inner.Sources.{AreSourcesKept};

    ghost view = { λ s. record { each = s.each.items; reached = s.reached.items; room = s.room } };

    ghost invariant = { AreSourcesKept };
}

impl Sources {
    /// Those of no class. Takes no memory.
    pub fn new(alloc: Global) -> Sources
        ensures each { result.each ≡ [] }
        ensures reached { result.reached ≡ [] }
    {
        Sources {
            each: Vec::new(alloc),
            reached: Vec::new(alloc),
            room: 0,
        }
    }

    /// Takes the memory for so many further classes.
    ///
    /// # Errors
    ///
    /// `AllocError` where memory was refused. The sources are then as before.
    pub fn room(&mut self, classes: usize) -> Result<(), AllocError>
        requires { length self.old.each + classes ≤ MOST_GRAPH_CLASSES }
        ensures same { self.new ≡ record self.old { room = self.new.room } }
        ensures kept { self.old.room ≤ self.new.room }
        ensures room { OnOk result (length self.old.each + classes ≤ self.new.room) }
    {
        let unreached = self.each.len() - self.reached.len();
        self.each.reserve(classes)?;
        self.reached.reserve(unreached + classes)?;
        self.room = self.room.max(self.each.len() + classes);
        Ok(())
    }

    /// Adds a class, which has no source. Takes no memory.
    pub fn add_class(&mut self)
        requires { length self.old.each < self.old.room }
        ensures each { self.new.each ≡ self.old.each ++ None ∷ [] }
        ensures reached { self.new.reached ≡ self.old.reached }
        ensures room { self.new.room ≡ self.old.room }
    {
        self.each.push_reserved(None);
    }

    /// The source of a class. Takes no memory.
    pub fn source(&self, class: u32) -> Option<u32>
        requires { class < length self.now.each }
        ensures { result ≡ slice_index_or self.now.each class None }
    {
        self.each[class as usize]
    }

    /// How many classes have a source. Takes no memory.
    pub fn count(&self) -> usize
        ensures count { result ≡ length self.now.reached }
        ensures few { result ≤ length self.now.each }
        ensures listed { AreReached self.now.each self.now.reached }
    {
        // Read so that the invariant, which speaks of all fields, is at hand.
        let _ = &self.each;
        let _ = &self.room;
        self.reached.len()
    }

    /// The class that got its source as number `number`, from 0 on. Takes no memory.
    pub fn reached_at(&self, number: usize) -> u32
        requires { number < length self.now.reached }
        ensures class { result ≡ slice_index_or self.now.reached number 0 }
        ensures within { result < length self.now.each }
        ensures has { IsSome (slice_index_or self.now.each result None) }
    {
        // Read so that the invariant, which speaks of all fields, is at hand.
        let _ = &self.each;
        let _ = &self.room;
        self.reached[number]
    }

    /// The classes that have a source, in the order in which they got it. Takes no memory.
    pub fn reached(&self) -> &[u32]
        ensures same { result.now ≡ self.now.reached }
        ensures within { All (λ c. c < length self.now.each) self.now.reached }
        ensures each { (c : ℕ) → Contains self.now.reached c ↔ IsSome (slice_index_or self.now.each c None) }
        ensures once { IsDistinct nat_eq self.now.reached }
    {
        // Read so that the invariant, which speaks of all fields, is at hand.
        let _ = &self.each;
        let _ = &self.room;
        &self.reached
    }

    /// Gives the class this source, unless it has one. Takes no memory.
    pub fn give(&mut self, class: u32, from: u32)
        requires { class < length self.old.each }
        ensures given { IsGiven class from self.old.each self.old.reached self.new.each self.new.reached }
        ensures len { length self.new.each ≡ length self.old.each }
        ensures room { self.new.room ≡ self.old.room }
    {
        if self.each[class as usize].is_some() {
            return;
        }
        self.each[class as usize] = Some(from);
        self.reached.push_reserved(class);
    }
}
