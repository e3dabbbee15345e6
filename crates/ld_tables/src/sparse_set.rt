//! Distinct numbers, in the order in which they came.
ghost use Rattle.std.specs.Prelude.{◌≡◌, ◌≢◌, ◌<◌, ◌≤◌, ℕ, [], ◌∷◌, ◌++◌, false, length, nat_eq, take};
ghost use Rattle.std.specs.Prelude.{true, slice_index_or, IfOk, OnErr, OnOk};
ghost use Rattle.std.specs.List.{list_any, position_or_len, AllPairs};

use std::alloc::{AllocError, Global};
use std::marker::Model;

/// Numbers, each once, in the order in which they came. To take them away costs nothing, however many
/// there were.
///
/// It takes memory for all numbers up to the greatest one that was added, so they should be places in
/// some list.
///
/// A call answers `AllocError` where a growth of memory was refused.
#[derive(Drop)]
pub struct SparseSet {
    order: Vec<u32>,
    /// By a number its place in the order. That of a number which isn't in the order is anything: another
    /// stands there, or none.
    place: Vec<u32>,
}

impl Model for SparseSet {
    ghost use Rattle.std.specs.Prelude.{List, ℕ};
    ghost use Rattle.ld_tables.specs.Inner.Numbers.{AreAtPlaces};

    ghost Value = { List ℕ };

    ghost view = { λ n. n.order.items };

    ghost invariant = { λ n. AreAtPlaces n.order.items n.place.items };
}

impl SparseSet {
    /// No number. Takes no memory.
    pub fn new(alloc: Global) -> SparseSet
        ensures { result ≡ [] }
    {
        SparseSet {
            order: Vec::new(alloc),
            place: Vec::new(alloc),
        }
    }

    /// Takes all numbers away. The memory stays.
    pub fn clear(&mut self)
        ensures { self.new ≡ [] }
    {
        self.order.clear();
    }

    /// How many there are.
    pub fn len(&self) -> usize
        ensures len { result ≡ length self.now }
        ensures distinct { AllPairs (λ a b. a ≢ b) self.now }
    {
        self.order.len()
    }

    /// The numbers, in the order in which they came.
    pub fn as_slice(&self) -> &[u32]
        ensures { result.now ≡ self.now }
    {
        self.order.as_slice()
    }

    /// Whether the number is there.
    pub fn has(&self, number: u32) -> bool
        ensures { result ≡ list_any (nat_eq number) self.now }
    {
        let index = number as usize;
        if self.place.len() <= index {
            return false;
        }
        let place = self.place[index] as usize;
        place < self.order.len() && self.order[place] == number
    }

    /// The place of a member.
    pub fn place(&self, member: u32) -> u32
        requires { list_any (nat_eq member) self.now ≡ true }
        ensures place { result ≡ position_or_len (nat_eq member) self.now }
        ensures within { result < length self.now }
    {
        self.place[member as usize]
    }

    /// By a number its place in the order, where it is there; what stands there for others says nothing.
    pub fn places(&self) -> &[u32]
        ensures { (n : ℕ) → list_any (nat_eq n) self.now ≡ true
            → slice_index_or result.now n 0 ≡ position_or_len (nat_eq n) self.now }
    {
        self.place.as_slice()
    }

    /// Adds a number that isn't there.
    pub fn add(&mut self, number: u32) -> Result<(), AllocError>
        requires { list_any (nat_eq number) self.old ≡ false }
        ensures added { OnOk result (self.new ≡ self.old ++ number ∷ []) }
        ensures refused { OnErr result (self.new ≡ self.old) }
    {
        let place = as_number(self.order.len())?;
        extend_to(&mut self.place, number)?;
        self.order.reserve(1)?;
        self.place[number as usize] = place;
        self.order.push_reserved(number);
        Ok(())
    }

    /// Keeps the first `count` of the numbers.
    pub fn cut(&mut self, count: usize)
        ensures { self.new ≡ take count self.old }
    {
        self.order.truncate(count);
    }
}

/// Gives the number a place, where it has none yet.
fn extend_to(place: &mut Vec<u32>, number: u32) -> Result<(), AllocError>
    ensures more { length place.old.items ≤ length place.new.items }
    ensures kept { (k : ℕ)
        → slice_index_or place.new.items k 0 ≡ slice_index_or place.old.items k 0 }
    ensures reached { OnOk result (number < length place.new.items) }
{
    let index = number as usize;
    if index < place.len() {
        return Ok(());
    }
    place.resize(index + 1, 0)
}

/// A place as a number. `AllocError` where it is above those that there are, as where a list can't grow so long.
pub fn as_number(place: usize) -> Result<u32, AllocError>
    ensures { IfOk result (λ number. number ≡ place) }
{
    if place > u32::MAX as usize {
        return Err(AllocError);
    }
    Ok(place as u32)
}
