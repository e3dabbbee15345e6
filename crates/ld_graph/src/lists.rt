//! For each class its successors and its predecessors, which are read one list at a time, by a reader
//! that counts.

ghost use Rattle.std.specs.Prelude.{◌≡◌, ◌+◌, ◌<◌, ◌≤◌, ◌^◌, [], ◌∷◌, ◌++◌, OnOk, length, false, true, slice_index_or, slice_set};
ghost use Rattle.std.specs.Prelude.{nat_eq};
ghost use Rattle.std.specs.List.{IsDistinct};
ghost use Rattle.ld_graph.specs.Lists.{HasRoom, IsNear, IsNextClass, IsNextItem, ListsGrown};
ghost use Rattle.ld_graph.specs.Lists.{list_at};

use crate::neighbours::Neighbours;
use std::alloc::{AllocError, Global};
use std::marker::{Brand, Model, PhantomData};

/// Whether a count of the lists that are read may begin at 0. Only proofs read it. With `Brand` it may. A body over any
/// `Counting` can't show it, so it reads by the count that it is handed alone, and all that it reads is in that count.
pub trait Counting {
    ghost begins: { Type 0 };
}

impl Counting for Brand {
    ghost begins = { Unit {0} };
}

/// A graph's lists: for each class its successors and its predecessors.
#[derive(Drop)]
pub struct Lists<C: Counting = Brand> {
    after: Neighbours,
    before: Neighbours,
    counting: PhantomData<C>,
}

impl<C: Counting> Model for Lists<C> {
    ghost use Rattle.ld_graph.specs.Lists.{Sides};

    ghost Value = { Sides };

    ghost use Rattle.ld_graph.specs.Inner.Sides.{HasEachOnce};

    ghost view = { λ l. record { after = l.after; before = l.before } };

    ghost invariant = { λ l. HasEachOnce l.after.lists × HasEachOnce l.before.lists };
}

impl<C: Counting> Lists<C> {
    /// The lists of no class. Takes no memory.
    pub fn new(alloc: Global) -> Lists<C>
        ensures after { (result.after.lists ≡ []) × (result.after.items ≡ 0) }
        ensures before { (result.before.lists ≡ []) × (result.before.items ≡ 0) }
    {
        Lists {
            after: Neighbours::new(alloc),
            before: Neighbours::new(alloc),
            counting: PhantomData,
        }
    }

    /// The successors of the class `c`, each once. Adds one to the count. Takes no memory.
    pub fn after(&self, c: u32, steps: &mut Steps<C>) -> &[u32]
        requires class { c < length self.now.after.lists }
        requires few { steps.old + 1 < 2 ^ 64 }
        ensures near { result.now ≡ list_at self.now.after.lists c }
        ensures once { IsDistinct nat_eq result.now }
        ensures step { steps.new ≡ steps.old + 1 }
    {
        steps.count += 1;
        self.after.of(c)
    }

    /// The predecessors of the class `c`, each once. Adds one to the count. Takes no memory.
    pub fn before(&self, c: u32, steps: &mut Steps<C>) -> &[u32]
        requires class { c < length self.now.before.lists }
        requires few { steps.old + 1 < 2 ^ 64 }
        ensures near { result.now ≡ list_at self.now.before.lists c }
        ensures once { IsDistinct nat_eq result.now }
        ensures step { steps.new ≡ steps.old + 1 }
    {
        steps.count += 1;
        self.before.of(c)
    }

    /// What `after` gives, and puts the mark of the class on, which has to be off. So by one list of marks no class's
    /// successors are read twice. Takes no memory.
    pub fn once(&self, c: u32, marks: &mut [bool], steps: &mut Steps<C>) -> &[u32]
        requires class { c < length self.now.after.lists }
        requires marks { length marks.old ≡ length self.now.after.lists }
        requires off { slice_index_or marks.old c false ≡ false }
        requires few { steps.old + 1 < 2 ^ 64 }
        ensures near { result.now ≡ list_at self.now.after.lists c }
        ensures once { IsDistinct nat_eq result.now }
        ensures on { marks.new ≡ slice_set marks.old c true }
        ensures step { steps.new ≡ steps.old + 1 }
    {
        marks[c as usize] = true;
        self.after(c, steps)
    }

    /// Takes the memory for so many further classes and edges.
    ///
    /// # Errors
    ///
    /// `AllocError` where memory was refused, or so much can't be asked for. The lists are then as before,
    /// but the memory that they have may have grown.
    pub fn room(&mut self, classes: usize, edges: usize) -> Result<(), AllocError>
        ensures after { ListsGrown self.old.after self.new.after }
        ensures before { ListsGrown self.old.before self.new.before }
        ensures after_room { OnOk result (HasRoom self.new.after classes edges) }
        ensures before_room { OnOk result (HasRoom self.new.before classes edges) }
    {
        self.after.room(classes, edges)?;
        self.before.room(classes, edges)
    }

    /// Adds a class, which has no neighbour. Takes no memory.
    pub fn add_class(&mut self)
        requires after { length self.old.after.lists < self.old.after.class_room }
        requires before { length self.old.before.lists < self.old.before.class_room }
        ensures after { IsNextClass self.old.after self.new.after }
        ensures before { IsNextClass self.old.before self.new.before }
    {
        self.after.add_class();
        self.before.add_class();
    }

    /// Adds the edge from `a` to `b`, which isn't there yet: to `a` its last successor, and to `b` its last
    /// predecessor. Takes no memory.
    pub fn push(&mut self, a: u32, b: u32)
        requires a { a < length self.old.after.lists }
        requires b { b < length self.old.before.lists }
        requires after_room { self.old.after.items < self.old.after.item_room }
        requires before_room { self.old.before.items < self.old.before.item_room }
        requires after_fresh { ¬ IsNear self.old.after.lists a b }
        requires before_fresh { ¬ IsNear self.old.before.lists b a }
        ensures after { IsNextItem self.old.after a b self.new.after }
        ensures before { IsNextItem self.old.before b a self.new.before }
    {
        self.after.push(a, b);
        self.before.push(b, a);
    }
}

/// How many lists were read. Nothing but reading a list raises it, or a reader that has read some.
#[derive(Drop)]
pub struct Steps<C: Counting = Brand> {
    count: u64,
    counting: PhantomData<C>,
}

impl<C: Counting> Model for Steps<C> {
    ghost use Rattle.std.specs.Prelude.{ℕ};

    ghost Value = { ℕ };

    ghost view = { λ s. s.count };
}

impl<C: Counting> Steps<C> {
    /// No list was read. Takes no memory.
    pub fn new() -> Steps<C>
        requires { C.begins }
        ensures { result ≡ 0 }
    {
        Steps {
            count: 0,
            counting: PhantomData,
        }
    }

    /// The number of lists that were read. Takes no memory.
    pub fn count(&self) -> u64
        ensures { result ≡ self.now }
    {
        self.count
    }
}

/// A graph's lists, and how many of them were read. Who is handed a reader reads by it alone: it
/// gives neither the lists themselves nor another reader, and each read counts.
#[derive(Drop)]
pub struct Reader<'l> {
    lists: &'l Lists,
    steps: Steps,
}

impl<'l> Model for Reader<'l> {
    ghost use Rattle.ld_graph.specs.Lists.{Reading};

    ghost Value = { Reading };

    ghost view = { λ r. record { lists = r.lists.now; count = r.steps } };
}

impl<'l> Reader<'l> {
    /// A reader of these lists, of which none was read. Takes no memory.
    pub fn new(lists: &'l Lists) -> Reader<'l>
        ensures lists { result.lists ≡ lists.entry.now }
        ensures none { result.count ≡ 0 }
    {
        Reader {
            lists,
            steps: Steps::new(),
        }
    }

    /// The number of lists that were read. Takes no memory.
    pub fn count(&self) -> u64
        ensures { result ≡ self.now.count }
    {
        self.steps.count()
    }

    /// Ends the reading, and adds the lists that were read to these steps. Takes no memory.
    pub fn add_to(self, steps: &mut Steps)
        requires few { steps.old + self.count < 2 ^ 64 }
        ensures step { steps.new ≡ steps.old + self.entry.count }
    {
        steps.count += self.steps.count;
    }

    /// The successors of the class `c`, each once. Adds one to the count. Takes no memory.
    pub fn after(&mut self, c: u32) -> &'l [u32]
        requires class { c < length self.old.lists.after.lists }
        requires few { self.old.count + 1 < 2 ^ 64 }
        ensures near { result.now ≡ list_at self.old.lists.after.lists c }
        ensures once { IsDistinct nat_eq result.now }
        ensures lists { self.new.lists ≡ self.old.lists }
        ensures step { self.new.count ≡ self.old.count + 1 }
    {
        self.lists.after(c, &mut self.steps)
    }

    /// The predecessors of the class `c`, each once. Adds one to the count. Takes no memory.
    pub fn before(&mut self, c: u32) -> &'l [u32]
        requires class { c < length self.old.lists.before.lists }
        requires few { self.old.count + 1 < 2 ^ 64 }
        ensures near { result.now ≡ list_at self.old.lists.before.lists c }
        ensures once { IsDistinct nat_eq result.now }
        ensures lists { self.new.lists ≡ self.old.lists }
        ensures step { self.new.count ≡ self.old.count + 1 }
    {
        self.lists.before(c, &mut self.steps)
    }

    /// What `after` gives, and puts the mark of the class on, which has to be off. Takes no memory.
    pub fn once(&mut self, c: u32, marks: &mut [bool]) -> &'l [u32]
        requires class { c < length self.old.lists.after.lists }
        requires marks { length marks.old ≡ length self.old.lists.after.lists }
        requires off { slice_index_or marks.old c false ≡ false }
        requires few { self.old.count + 1 < 2 ^ 64 }
        ensures near { result.now ≡ list_at self.old.lists.after.lists c }
        ensures once { IsDistinct nat_eq result.now }
        ensures on { marks.new ≡ slice_set marks.old c true }
        ensures lists { self.new.lists ≡ self.old.lists }
        ensures step { self.new.count ≡ self.old.count + 1 }
    {
        self.lists.once(c, marks, &mut self.steps)
    }
}
