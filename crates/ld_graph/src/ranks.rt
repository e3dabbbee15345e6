//! The ranks of a graph's classes: the order, the space that its repairs take, and what the insert of an edge does.
ghost use Rattle.std.specs.Prelude.{◌≡◌, ◌≢◌, ◌↔◌, ℕ, ◌+◌, ◌<◌, ◌≤◌, ◌^◌, [], ◌∷◌, ◌++◌, length, slice_index, IsTrue, IfSome, MatchOption, OnOk, false};
ghost use Rattle.ld_graph.specs.declared.graph.TheConstants.{MOST_GRAPH_CLASSES};
ghost use Rattle.ld_graph.specs.Inner.Repairs.{IsOrReaches, IsRepaired};
ghost use Rattle.ld_graph.specs.Lists.{IsNear};
ghost use Rattle.ld_order.specs.Orders.{AreRanks};
ghost use Rattle.ld_graph.specs.Inner.Placed.{IsPlaced};
ghost use Rattle.ld_graph.specs.Order.{TellsSteps};

use crate::lists::{Counting, Lists, Steps};
use crate::reorder::reorder;
use crate::search::Search;
use ld_order::Order;
use std::alloc::{AllocError, Global};
use std::marker::Model;

/// The rank of each class: its place in the order.
#[derive(Drop)]
pub struct Ranks {
    order: Order,
    backward: Search,
    forward: Search,
    /// For how many classes there is memory.
    room: usize,
}

impl Model for Ranks {
    ghost use Rattle.ld_order.specs.Orders.{Ordered};

    ghost Value = { Ordered };

    ghost use Rattle.ld_graph.specs.Inner.Ranks.{IsRanked};

    ghost view = { λ r. record { ranks = r.order.ranks; room = r.room } };

    ghost invariant = { IsRanked };
}

impl Ranks {
    ghost use Rattle.std.specs.Borrow.{sem};
    ghost use Rattle.ld_graph.specs.Inner.Lending.{StayAs};

    /// No class.
    pub fn new(alloc: Global) -> Ranks
        ensures ranks { result.ranks ≡ [] }
        ensures room { result.room ≡ 0 }
    {
        Ranks {
            order: Order::new(alloc),
            backward: Search::new(alloc),
            forward: Search::new(alloc),
            room: 0,
        }
    }

    /// Makes memory for so many classes in all.
    pub fn room(&mut self, classes: usize) -> Result<(), AllocError>
        requires { classes ≤ MOST_GRAPH_CLASSES }
        ensures ranks { self.new.ranks ≡ self.old.ranks }
        ensures kept { self.old.room ≤ self.new.room }
        ensures room { OnOk result (classes ≤ self.new.room) }
    {
        if classes <= self.room {
            return Ok(());
        }
        self.backward.room(classes)?;
        self.forward.room(classes)?;
        self.order.room(classes)?;
        self.room = classes;
        Ok(())
    }

    /// Adds a class, which gets the last rank.
    pub fn add_class(&mut self)
        requires { length self.old.ranks < self.old.room }
        ensures ranks { self.new.ranks ≡ self.old.ranks ++ length self.old.ranks ∷ [] }
        ensures room { self.new.room ≡ self.old.room }
    {
        self.order.add_class();
    }

    /// Whether the class `a` is ranked below the class `b`.
    pub fn is_before(&self, a: u32, b: u32) -> bool
        requires a { a < length self.now.ranks }
        requires b { b < length self.now.ranks }
        ensures before { IsTrue result ↔ (slice_index self.now.ranks a < slice_index self.now.ranks b) }
        ensures ranks { AreRanks self.now.ranks }
    {
        // Read so that the invariant, which speaks of all fields, is at hand.
        let _ = &self.backward;
        self.order.is_before(a, b)
    }

    /// The rank of each class.
    pub fn list(&mut self) -> &[u32]
        ensures* same { sem 𝓛 (StayAs self.entry) }
        ensures ranks { result.now ≡ self.old.ranks }
        ensures dense { AreRanks self.old.ranks }
    {
        self.order.ranks()
    }

    /// Repairs the ranks for an edge from `a` to `b` that goes against them, and answers how many lists were read for
    /// it, by which the count rises. Answers `None`, and leaves the ranks, where a walk leads from `b` to `a`.
    pub fn repair<C: Counting>(
        &mut self,
        lists: &Lists<C>,
        steps: &mut Steps<C>,
        a: u32,
        b: u32,
    ) -> Option<u64>
        requires a { a < length self.old.ranks }
        requires b { b < length self.old.ranks }
        requires against { slice_index self.old.ranks b < slice_index self.old.ranks a }
        requires classes { (length lists.now.after.lists ≡ length self.old.ranks)
            × (length lists.now.before.lists ≡ length self.old.ranks) }
        requires turned { (x y : ℕ) → IsNear lists.now.after.lists x y
            ↔ IsNear lists.now.before.lists y x }
        requires ends { (x y : ℕ) → IsNear lists.now.after.lists x y
            → (x < length self.old.ranks) × (y < length self.old.ranks) }
        requires rises { (x y : ℕ) → IsNear lists.now.after.lists x y
            → slice_index self.old.ranks x < slice_index self.old.ranks y }
        requires steps { steps.old < 2 ^ 63 }
        ensures told { IfSome result (λ expanded. steps.new ≡ steps.old + expanded) }
        ensures rises { steps.old ≤ steps.new }
        ensures most { steps.new ≤ steps.old + length self.old.ranks + length self.old.ranks }
        ensures room { self.new.room ≡ self.old.room }
        ensures ranks { MatchOption result
            ((self.new.ranks ≡ self.old.ranks) × IsOrReaches (IsNear lists.now.after.lists) b a)
            (IsRepaired (IsNear lists.now.after.lists) a b self.old.ranks self.new.ranks) }
    {
        let before = steps.count();
        let repaired = reorder(
            &mut self.order,
            lists,
            steps,
            a,
            b,
            &mut self.backward,
            &mut self.forward,
        );
        self.backward.clear();
        self.forward.clear();
        if repaired {
            Some(steps.count() - before)
        } else {
            None
        }
    }
}

/// What an insert has done.
#[derive(Clone, Copy, PartialEq, Eq, Debug)]
pub enum Insert {
    /// The edge was there already, and none was added.
    Known,
    /// The edge was added, and all ranks stand.
    Kept,
    /// The edge was added, and the ranks were repaired.
    Moved {
        /// How many lists of neighbours were read for it.
        expanded: u64,
    },
    /// The edge was added, and the first cycle is there now.
    Closed,
    /// The edge was added, and there was a cycle before.
    AfterCycle,
}

/// Makes the ranks fit an edge from `a` to `b` that is about to come, or notes that it closes a
/// cycle. The lists that are read for it are counted.
pub fn place<C: Counting>(
    lists: &Lists<C>,
    steps: &mut Steps<C>,
    ranks: &mut Ranks,
    has_cycle: &mut bool,
    a: u32,
    b: u32,
) -> Insert
    requires a { a < length ranks.old.ranks }
    requires b { b < length ranks.old.ranks }
    requires classes { (length lists.now.after.lists ≡ length ranks.old.ranks)
        × (length lists.now.before.lists ≡ length ranks.old.ranks) }
    requires turned { (x y : ℕ) → IsNear lists.now.after.lists x y
        ↔ IsNear lists.now.before.lists y x }
    requires ends { (x y : ℕ) → IsNear lists.now.after.lists x y
        → (x < length ranks.old.ranks) × (y < length ranks.old.ranks) }
    requires rises { has_cycle.old ≡ false → (x y : ℕ) → IsNear lists.now.after.lists x y
        → slice_index ranks.old.ranks x < slice_index ranks.old.ranks y }
    requires steps { steps.old < 2 ^ 63 }
    ensures told { TellsSteps (length ranks.old.ranks) result steps.old steps.new }
    ensures room { ranks.new.room ≡ ranks.old.room }
    ensures placed { IsPlaced (IsNear lists.now.after.lists) a b result has_cycle.old has_cycle.new
        ranks.old.ranks ranks.new.ranks }
{
    if *has_cycle {
        return Insert::AfterCycle;
    }
    if a == b {
        *has_cycle = true;
        return Insert::Closed;
    }
    if ranks.is_before(a, b) {
        return Insert::Kept;
    }
    let Some(expanded) = ranks.repair(lists, steps, a, b) else {
        *has_cycle = true;
        return Insert::Closed;
    };
    Insert::Moved { expanded }
}
