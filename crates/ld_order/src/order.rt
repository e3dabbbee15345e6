//! The order itself.

ghost use Rattle.std.specs.Prelude.{◌≡◌, ◌↔◌, ◌+◌, ◌<◌, ◌≤◌, ◌++◌, ◌∷◌, [], ℕ, length, slice_index, vec_capacity, IsTrue, OnOk, Contains, nat_eq};
ghost use Rattle.std.specs.List.{IsDistinct};
ghost use Rattle.ld_order.specs.Orders.{AreInOrder, AreRanks, HaveMoved};

use crate::labels::{Side, make_room_at_end};
use crate::moves::move_classes;
use crate::ring::{append, begin, fill};
use crate::sorted::Labelled;
use std::alloc::{AllocError, Global};
use std::marker::Model;

/// How many classes an order may have.
pub const MOST_ORDERED_CLASSES: usize = 1 << 30;

// Clauses cite the constant, so they would hold with any other number that fits.
const _: () = prove!(MOST_ORDERED_CLASSES == 1_073_741_824);

/// An order of the classes from 0 on. The rank of a class is its place in the list.
#[derive(Drop)]
pub struct Order {
    labels: Vec<u64>,
    next: Vec<u32>,
    prev: Vec<u32>,
    /// Working space of moves.
    pool: Vec<Labelled>,
    sorted: Vec<u32>,
    /// What `ranks` lends.
    ranks: Vec<u32>,
    /// For how many classes there is memory.
    room: usize,
}

impl Model for Order {
    ghost use Rattle.ld_order.specs.Orders.{Ordered};

    ghost Value = { Ordered };

    ghost use Rattle.ld_order.specs.Inner.Kept.{IsKept, ordered_of};

    ghost view = { ordered_of };

    ghost invariant = { IsKept };
}

impl Order {
    ghost use Rattle.std.specs.Borrow.{sem};
    ghost use Rattle.ld_order.specs.Lending.{StaysAs};

    /// An order of no class. Takes no memory.
    pub fn new(alloc: Global) -> Order
        ensures ranks { result.ranks ≡ [] }
        ensures room { result.room ≡ 0 }
    {
        Order {
            labels: Vec::new(alloc),
            next: Vec::new(alloc),
            prev: Vec::new(alloc),
            pool: Vec::new(alloc),
            sorted: Vec::new(alloc),
            ranks: Vec::new(alloc),
            room: 0,
        }
    }

    /// Takes the memory for so many classes in all.
    ///
    /// # Errors
    ///
    /// `AllocError` where memory was refused. The order is as before.
    pub fn room(&mut self, classes: usize) -> Result<(), AllocError>
        requires { classes ≤ MOST_ORDERED_CLASSES }
        ensures ranks { self.new.ranks ≡ self.old.ranks }
        ensures kept { self.old.room ≤ self.new.room }
        ensures room { OnOk result (classes ≤ self.new.room) }
    {
        if classes <= self.room {
            return Ok(());
        }
        reserve_nodes(
            &mut self.labels,
            &mut self.next,
            &mut self.prev,
            classes + 1,
        )?;
        reserve_space(&mut self.pool, &mut self.sorted, &mut self.ranks, classes)?;
        begin(&mut self.labels, &mut self.next, &mut self.prev);
        self.room = classes;
        Ok(())
    }

    /// Adds a class, which gets the last rank. Takes no memory.
    pub fn add_class(&mut self)
        requires { length self.old.ranks < self.old.room }
        ensures ranks { self.new.ranks ≡ self.old.ranks ++ length self.old.ranks ∷ [] }
        ensures room { self.new.room ≡ self.old.room }
    {
        make_room_at_end(&mut self.labels, &self.next, &self.prev);
        append(&mut self.labels, &mut self.next, &mut self.prev);
        self.ranks.push_reserved(0);
    }

    /// Whether the class `a` is ranked below the class `b`. Takes no memory.
    pub fn is_before(&self, a: u32, b: u32) -> bool
        requires a { a < length self.now.ranks }
        requires b { b < length self.now.ranks }
        ensures before { IsTrue result ↔ (slice_index self.now.ranks a < slice_index self.now.ranks b) }
        ensures dense { AreRanks self.now.ranks }
    {
        // Read so that the invariant, which speaks of all fields, is at hand.
        let _ = &self.room;
        self.labels[a as usize + 1] < self.labels[b as usize + 1]
    }

    /// A number for each class, in the order of the ranks. Takes no memory.
    pub fn labels(&self) -> &[u64]
        requires { 0 < length self.now.ranks }
        ensures len { length result.now ≡ length self.now.ranks }
        ensures order { AreInOrder self.now.ranks result.now }
        ensures dense { AreRanks self.now.ranks }
    {
        // Read so that the invariant, which speaks of all fields, is at hand.
        let _ = &self.room;
        &self.labels[1..]
    }

    /// Moves these classes, all ranked above the class `b`, directly before it, in their order. Takes no memory.
    pub fn move_before(&mut self, b: u32, classes: &[u32])
        requires b { b < length self.old.ranks }
        requires classes { (x : ℕ) → Contains classes.now x → x < length self.old.ranks }
        requires above { (x : ℕ) → Contains classes.now x
            → slice_index self.old.ranks b < slice_index self.old.ranks x }
        requires once { IsDistinct nat_eq classes.now }
        ensures moved { HaveMoved (Contains classes.now) (slice_index self.old.ranks b) self.old.ranks self.new.ranks }
        ensures room { self.new.room ≡ self.old.room }
    {
        let at = self.prev[b as usize + 1];
        move_classes(
            &mut self.labels,
            &mut self.next,
            &mut self.prev,
            &mut self.pool,
            &mut self.sorted,
            at,
            classes,
            Side::Low,
        );
    }

    /// Moves these classes, all ranked below the class `a`, directly behind it, in their order. Takes no memory.
    pub fn move_behind(&mut self, a: u32, classes: &[u32])
        requires a { a < length self.old.ranks }
        requires classes { (x : ℕ) → Contains classes.now x → x < length self.old.ranks }
        requires below { (x : ℕ) → Contains classes.now x
            → slice_index self.old.ranks x < slice_index self.old.ranks a }
        requires once { IsDistinct nat_eq classes.now }
        ensures moved { HaveMoved (Contains classes.now) (slice_index self.old.ranks a + 1)
            self.old.ranks self.new.ranks }
        ensures room { self.new.room ≡ self.old.room }
    {
        move_classes(
            &mut self.labels,
            &mut self.next,
            &mut self.prev,
            &mut self.pool,
            &mut self.sorted,
            a + 1,
            classes,
            Side::High,
        );
    }

    /// The rank of each class. Takes no memory.
    pub fn ranks(&mut self) -> &[u32]
        ensures* same { sem 𝓛 (StaysAs self.entry) }
        ensures ranks { result.now ≡ self.old.ranks }
        ensures dense { AreRanks self.old.ranks }
    {
        if self.labels.is_empty() {
            return &self.ranks;
        }
        fill(&self.labels, &self.next, &self.prev, &mut self.ranks);
        &self.ranks
    }
}

/// Takes the memory for so many nodes in all.
fn reserve_nodes(
    labels: &mut Vec<u64>,
    next: &mut Vec<u32>,
    prev: &mut Vec<u32>,
    count: usize,
) -> Result<(), AllocError>
    requires fits { length labels.old.items ≤ count }
    requires next_len { length next.old.items ≡ length labels.old.items }
    requires prev_len { length prev.old.items ≡ length labels.old.items }
    ensures labels { labels.new.items ≡ labels.old.items }
    ensures next { next.new.items ≡ next.old.items }
    ensures prev { prev.new.items ≡ prev.old.items }
    ensures labels_kept { vec_capacity labels.old ≤ vec_capacity labels.new }
    ensures next_kept { vec_capacity next.old ≤ vec_capacity next.new }
    ensures prev_kept { vec_capacity prev.old ≤ vec_capacity prev.new }
    ensures room { OnOk result ((count ≤ vec_capacity labels.new)
        × ((count ≤ vec_capacity next.new) × (count ≤ vec_capacity prev.new))) }
{
    labels.reserve(count - labels.len())?;
    next.reserve(count - next.len())?;
    prev.reserve(count - prev.len())
}

/// Takes the memory for the moves of so many classes, and for their ranks.
fn reserve_space(
    pool: &mut Vec<Labelled>,
    sorted: &mut Vec<u32>,
    ranks: &mut Vec<u32>,
    count: usize,
) -> Result<(), AllocError>
    requires fits { length ranks.old.items ≤ count }
    ensures ranks { length ranks.new.items ≡ length ranks.old.items }
    ensures pool_kept { vec_capacity pool.old ≤ vec_capacity pool.new }
    ensures sorted_kept { vec_capacity sorted.old ≤ vec_capacity sorted.new }
    ensures ranks_kept { vec_capacity ranks.old ≤ vec_capacity ranks.new }
    ensures room { OnOk result ((count ≤ vec_capacity pool.new)
        × ((count ≤ vec_capacity sorted.new) × (count ≤ vec_capacity ranks.new))) }
{
    pool.clear();
    pool.reserve(count)?;
    sorted.clear();
    sorted.reserve(count)?;
    ranks.reserve(count - ranks.len())
}
