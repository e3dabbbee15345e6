//! What a search of a repair has found.

ghost use Rattle.std.specs.Prelude.{◌≡◌, ℕ, ◌<◌, ◌≤◌, [], nat_eq, Contains, OnOk, true, false};
ghost use Rattle.std.specs.Prelude.{length, slice_index, slice_index_or, MatchOption};
ghost use Rattle.std.specs.Prelude.{◌↔◌, IsTrue};
ghost use Rattle.std.specs.List.{IsDistinct};
ghost use Rattle.ld_graph.specs.Inner.Repairs.{IsAdded};

use std::alloc::{AllocError, Global};
use std::marker::Model;

/// The classes that a search has found, in the order in which it found them.
#[derive(Drop)]
pub struct Search {
    found: Vec<u32>,
    /// For each class whether it was found.
    marks: Vec<bool>,
}

impl Model for Search {
    ghost use Rattle.ld_graph.specs.Inner.Repairs.{Sought};

    ghost Value = { Sought };

    ghost use Rattle.ld_graph.specs.Inner.Marks.{AreMarked};
    ghost use Rattle.std.specs.Prelude.{◌≤◌, vec_len, vec_capacity};

    ghost view = { λ s. record { found = s.found.items; size = vec_len s.marks } };

    ghost invariant = { λ s. AreMarked s.marks.items s.found.items
        × (vec_len s.marks ≤ vec_capacity s.found) };
}

impl Search {
    /// A search among no classes.
    pub fn new(alloc: Global) -> Search
        ensures found { result.found ≡ [] }
    {
        Search {
            found: Vec::new(alloc),
            marks: Vec::new(alloc),
        }
    }

    /// Takes the memory for a search among so many classes.
    pub fn room(&mut self, size: usize) -> Result<(), AllocError>
        ensures found { self.new.found ≡ self.old.found }
        ensures kept { self.old.size ≤ self.new.size }
        ensures size { OnOk result (size ≤ self.new.size) }
    {
        if size <= self.marks.len() {
            return Ok(());
        }
        self.found.reserve(size)?;
        self.marks.resize(size, false)?;
        Ok(())
    }

    /// Finds a class. One that was found stays where it is.
    pub fn add(&mut self, class: u32)
        requires { class < self.old.size }
        ensures found { IsAdded self.old.found class self.new.found }
        ensures size { self.new.size ≡ self.old.size }
    {
        if !self.marks[class as usize] {
            self.marks[class as usize] = true;
            self.found.push_reserved(class);
        }
    }

    /// Whether the class was found.
    pub fn has(&self, class: u32) -> bool
        requires { class < self.now.size }
        ensures { IsTrue result ↔ Contains self.now.found class }
    {
        self.marks[class as usize]
    }

    /// The classes that were found.
    pub fn found(&self) -> &[u32]
        ensures found { result.now ≡ self.now.found }
        ensures once { IsDistinct nat_eq self.now.found }
    {
        // Read so that the invariant, which speaks of both fields, is at hand.
        let _ = &self.marks;
        &self.found
    }

    /// The class that was found as number `number`, from 0 on.
    pub fn class(&self, number: usize) -> u32
        requires { number < length self.now.found }
        ensures class { result ≡ slice_index self.now.found number }
        ensures once { IsDistinct nat_eq self.now.found }
        ensures below { (k : ℕ) → Contains self.now.found k → k < self.now.size }
    {
        // Read so that the invariant, which speaks of both fields, is at hand.
        let _ = &self.marks;
        self.found[number]
    }

    /// Whether no more than so many classes were found.
    pub fn ends_at(&self, number: usize) -> bool
        ensures { IsTrue result ↔ (length self.now.found ≤ number) }
    {
        // Read so that the invariant, which speaks of both fields, is at hand.
        let _ = &self.marks;
        self.found.len() <= number
    }

    /// Forgets what was found.
    pub fn clear(&mut self)
        ensures once { IsDistinct nat_eq self.old.found }
        ensures found { self.new.found ≡ [] }
        ensures size { self.new.size ≡ self.old.size }
    {
        unmark(&mut self.marks, &self.found);
        self.found.clear();
    }
}

/// Takes the marks of these classes away.
fn unmark(marks: &mut [bool], found: &[u32])
    requires { (k : ℕ) → Contains found.now k → k < length marks.old }
    ensures { (k : ℕ) → slice_index_or marks.new k false ≡ true
        → (slice_index_or marks.old k false ≡ true) × (¬ Contains found.now k) }
{
    for class in found {
        marks[*class as usize] = false;
    }
}
