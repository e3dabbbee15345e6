//! Which classes were expanded, each at most once.

ghost use Rattle.std.specs.Prelude.{◌≡◌, ◌+◌, ◌<◌, ◌≤◌, ◌^◌, [], ◌∷◌, ◌++◌, OnOk, true, false};
ghost use Rattle.std.specs.Prelude.{count_by, length, nat_eq, slice_index_or, slice_set};
ghost use Rattle.std.specs.List.{IsDistinct};
ghost use Rattle.ld_graph.specs.Lists.{list_at};

use crate::lists::Reader;
use std::alloc::{AllocError, Global};
use std::marker::Model;

/// For each class a mark, and how many marks are on. A mark is off until `once` reads the class's
/// successors, and from then on it is on: no call takes it off again, and no other puts one on.
#[derive(Drop)]
pub struct Marks {
    marks: Vec<bool>,
    count: u64,
}

impl Model for Marks {
    ghost use Rattle.ld_graph.specs.Inner.Marks.{Marked};

    ghost Value = { Marked };

    ghost use Rattle.std.specs.Prelude.{◌≡◌, count_by, vec_capacity};

    ghost view = { λ m. record {
      each = m.marks.items;
      count = m.count;
      room = vec_capacity m.marks;
    } };

    ghost invariant = { λ m. m.count ≡ count_by (λ mark. mark) m.marks.items };
}

impl Marks {
    /// The marks of no class. Takes no memory.
    pub fn new(alloc: Global) -> Marks
        ensures each { result.each ≡ [] }
        ensures count { result.count ≡ 0 }
    {
        Marks {
            marks: Vec::new(alloc),
            count: 0,
        }
    }

    /// The number of classes. Takes no memory.
    pub fn len(&self) -> usize
        ensures { result ≡ length self.now.each }
    {
        self.marks.len()
    }

    /// How many marks are on. Takes no memory.
    pub fn count(&self) -> u64
        ensures count { result ≡ self.now.count }
        ensures on { result ≡ count_by (λ mark. mark) self.now.each }
    {
        // Read so that the invariant, which speaks of both fields, is at hand.
        let _ = &self.marks;
        self.count
    }

    /// Whether the mark of the class `c` is on. Takes no memory.
    pub fn is_on(&self, c: u32) -> bool
        requires { c < length self.now.each }
        ensures { result ≡ slice_index_or self.now.each c false }
    {
        self.marks[c as usize]
    }

    /// Takes the memory for so many further classes.
    ///
    /// # Errors
    ///
    /// `AllocError` where memory was refused. The marks are then as before, but the memory that they
    /// have may have grown.
    pub fn room(&mut self, classes: usize) -> Result<(), AllocError>
        ensures same { self.new ≡ record self.old { room = self.new.room } }
        ensures kept { self.old.room ≤ self.new.room }
        ensures room { OnOk result (length self.old.each + classes ≤ self.new.room) }
    {
        self.marks.reserve(classes)
    }

    /// Adds a class, whose mark is off. Takes no memory.
    pub fn add_class(&mut self)
        requires { length self.old.each < self.old.room }
        ensures each { self.new.each ≡ self.old.each ++ false ∷ [] }
        ensures count { self.new.count ≡ self.old.count }
        ensures room { self.old.room ≤ self.new.room }
    {
        self.marks.push_reserved(false);
    }

    /// The successors of the class `c`, each once, and puts the mark of the class on, which has to be
    /// off. So by one list of marks no class's successors are read twice. Takes no memory.
    pub fn once<'l>(&mut self, c: u32, reader: &mut Reader<'l>) -> &'l [u32]
        requires class { c < length self.old.each }
        requires lists { length reader.old.lists.after.lists ≡ length self.old.each }
        requires off { slice_index_or self.old.each c false ≡ false }
        requires few { reader.old.count + 1 < 2 ^ 64 }
        ensures near { result.now ≡ list_at reader.old.lists.after.lists c }
        ensures once { IsDistinct nat_eq result.now }
        ensures lists { reader.new.lists ≡ reader.old.lists }
        ensures step { reader.new.count ≡ reader.old.count + 1 }
        ensures on { self.new.each ≡ slice_set self.old.each c true }
        ensures count { self.new.count ≡ self.old.count + 1 }
        ensures counted { self.new.count ≡ count_by (λ mark. mark) self.new.each }
        ensures room { self.new.room ≡ self.old.room }
    {
        self.count += 1;
        reader.once(c, &mut self.marks)
    }
}
