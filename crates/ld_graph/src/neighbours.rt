//! For each class the list of its neighbours, kept so that a new neighbour takes no memory once
//! there is room for it, and so that each list is a slice.

ghost use Rattle.std.specs.Prelude.{◌≡◌, ◌+◌, ◌*◌, ◌<◌, ◌≤◌, [], ◌∷◌, ◌++◌, OnOk, max};
ghost use Rattle.std.specs.Prelude.{length, take, drop, slice_set, vec_len, vec_capacity};
ghost use Rattle.ld_graph.specs.Lists.{list_at};
ghost use Rattle.ld_graph.specs.Inner.Runs.{HasWay};

use std::alloc::{AllocError, Global};
use std::marker::Model;

/// How many slots there must be for each neighbour: a list that grows out of its slots moves to
/// twice as many, and those that it leaves stay unused.
const SLOTS_EACH: usize = 4;

/// Where the list of a class lies among the slots.
#[derive(Clone, Copy)]
pub struct Run {
    start: usize,
    len: usize,
    /// How many slots there are for it.
    room: usize,
}

/// For each class a list of classes.
#[derive(Drop)]
pub struct Neighbours {
    runs: Vec<Run>,
    slots: Vec<u32>,
    items: usize,
}

impl Model for Neighbours {
    ghost use Rattle.std.specs.Prelude.{◌/◌, map, vec_len, vec_capacity};
    ghost use Rattle.ld_graph.specs.Lists.{NearLists};

    ghost Value = { NearLists };

    ghost use Rattle.ld_graph.specs.Inner.Runs.{items_of, AreRuns};

    ghost view = { λ n. record {
      lists = map (items_of n.slots.items) n.runs.items;
      items = n.items;
      class_room = vec_capacity n.runs;
      item_room = vec_capacity n.slots / 4;
    } };

    ghost invariant = { λ n. AreRuns n.runs.items n.slots.items n.items };
}

impl Neighbours {
    /// No class.
    pub fn new(alloc: Global) -> Neighbours
        ensures lists { result.lists ≡ [] }
        ensures items { result.items ≡ 0 }
    {
        Neighbours {
            runs: Vec::new(alloc),
            slots: Vec::new(alloc),
            items: 0,
        }
    }

    /// Makes memory for so many further classes and neighbours.
    pub fn room(&mut self, classes: usize, items: usize) -> Result<(), AllocError>
        ensures same { (self.new.lists ≡ self.old.lists) × (self.new.items ≡ self.old.items) }
        ensures kept { (self.old.class_room ≤ self.new.class_room)
            × (self.old.item_room ≤ self.new.item_room) }
        ensures classes { OnOk result (length self.old.lists + classes ≤ self.new.class_room) }
        ensures items { OnOk result (self.old.items + items ≤ self.new.item_room) }
    {
        let Some(count) = self.items.checked_add(items) else {
            return Err(AllocError);
        };
        let Some(slots) = count.checked_mul(SLOTS_EACH) else {
            return Err(AllocError);
        };
        self.runs.reserve(classes)?;
        self.slots.reserve(slots.saturating_sub(self.slots.len()))
    }

    /// Adds a class that has no neighbour.
    pub fn add_class(&mut self)
        requires { length self.old.lists < self.old.class_room }
        ensures lists { self.new.lists ≡ self.old.lists ++ [] ∷ [] }
        ensures items { self.new.items ≡ self.old.items }
        ensures room { (self.old.class_room ≤ self.new.class_room)
            × (self.old.item_room ≤ self.new.item_room) }
    {
        let run = Run {
            start: 0,
            len: 0,
            room: 0,
        };
        self.runs.push_reserved(run);
    }

    /// Adds a neighbour to the list of a class.
    pub fn push(&mut self, class: u32, neighbour: u32)
        requires class { class < length self.old.lists }
        requires room { self.old.items < self.old.item_room }
        ensures lists { self.new.lists
            ≡ slice_set self.old.lists class (list_at self.old.lists class ++ neighbour ∷ []) }
        ensures items { self.new.items ≡ self.old.items + 1 }
        ensures room { (self.old.class_room ≤ self.new.class_room)
            × (self.old.item_room ≤ self.new.item_room) }
    {
        let run = make_way(&mut self.slots, self.runs[class as usize]);
        self.slots[run.start + run.len] = neighbour;
        self.runs[class as usize] = Run {
            len: run.len + 1,
            ..run
        };
        self.items += 1;
    }

    /// The list of a class.
    pub fn of(&self, class: u32) -> &[u32]
        requires { class < length self.now.lists }
        ensures { result.now ≡ list_at self.now.lists class }
    {
        let run = self.runs[class as usize];
        &self.slots[run.start..run.start + run.len]
    }
}

/// Appends a copy of so many slots, from `start` on. Takes no memory.
fn copy_to_end(slots: &mut Vec<u32>, start: usize, len: usize)
    requires within { start + len ≤ vec_len slots.old }
    requires room { vec_len slots.old + len ≤ vec_capacity slots.old }
    ensures items { slots.new.items ≡ slots.old.items ++ take len (drop start slots.old.items) }
    ensures capacity { vec_capacity slots.old ≤ vec_capacity slots.new }
{
    for i in 0..len {
        let item = slots[start + i];
        slots.push_reserved(item);
    }
}

/// Gives the run room for one more item: where it is full, by a move to the end of the slots. Takes
/// no memory.
fn make_way(slots: &mut Vec<u32>, run: Run) -> Run
    requires within { (run.len ≤ run.room) × (run.start + run.room ≤ vec_len slots.old) }
    requires room { run.len ≡ run.room
        → vec_len slots.old + max 1 (2 * run.len) ≤ vec_capacity slots.old }
    ensures way { HasWay slots.old.items run slots.new.items result }
    ensures capacity { vec_capacity slots.old ≤ vec_capacity slots.new }
{
    if run.len < run.room {
        return run;
    }
    let start = slots.len();
    let room = (2 * run.len).max(1);
    copy_to_end(slots, run.start, run.len);
    let Ok(()) = slots.resize(start + room, 0) else {
        unreachable!()
    };
    Run {
        start,
        len: run.len,
        room,
    }
}
