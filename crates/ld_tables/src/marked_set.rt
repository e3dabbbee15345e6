//! Distinct numbers, in the order in which they came, each with a mark.
ghost use Rattle.std.specs.Prelude.{◌≡◌, ◌≢◌, ◌<◌, ℕ, [], ◌∷◌, ◌++◌, All, false, if◌then◌else◌, length, nat_eq};
ghost use Rattle.std.specs.Prelude.{take, true, slice_index_or, OnErr, OnOk};
ghost use Rattle.std.specs.List.{list_any, AllPairs};
ghost use Rattle.ld_tables.specs.Inner.Numbers.{AreMarked};

use std::alloc::{AllocError, Global};
use std::marker::Model;

/// Numbers, each once, in the order in which they came. Whether a number is there costs one look at its
/// mark, and to take numbers away costs one write for each.
///
/// It takes a byte for all numbers up to the greatest one that was added, so they should be places in some
/// list.
///
/// A call answers `AllocError` where a growth of memory was refused.
#[derive(Drop)]
pub struct MarkedSet {
    order: Vec<u32>,
    /// By a number whether it is in the order.
    marks: Vec<bool>,
}

impl Model for MarkedSet {
    ghost use Rattle.std.specs.Prelude.{List, ℕ};
    ghost use Rattle.ld_tables.specs.Inner.Numbers.{AreMarked};

    ghost Value = { List ℕ };

    ghost view = { λ m. m.order.items };

    ghost invariant = { λ m. AreMarked m.order.items m.marks.items };
}

impl MarkedSet {
    /// No number. Takes no memory.
    pub fn new(alloc: Global) -> MarkedSet
        ensures { result ≡ [] }
    {
        MarkedSet {
            order: Vec::new(alloc),
            marks: Vec::new(alloc),
        }
    }

    /// The numbers, in the order in which they came.
    pub fn as_slice(&self) -> &[u32]
        ensures same { result.now ≡ self.now }
        ensures distinct { AllPairs (λ a b. a ≢ b) self.now }
    {
        self.order.as_slice()
    }

    /// Whether the number is there.
    pub fn has(&self, number: u32) -> bool
        ensures { result ≡ list_any (nat_eq number) self.now }
    {
        match self.marks.get(number as usize) {
            Some(mark) => *mark,
            None => false,
        }
    }

    /// Adds a number that isn't there.
    pub fn add(&mut self, number: u32) -> Result<(), AllocError>
        requires { list_any (nat_eq number) self.old ≡ false }
        ensures added { OnOk result (self.new ≡ self.old ++ number ∷ []) }
        ensures refused { OnErr result (self.new ≡ self.old) }
    {
        extend_to(&mut self.marks, number)?;
        self.order.reserve(1)?;
        self.marks[number as usize] = true;
        self.order.push_reserved(number);
        Ok(())
    }

    /// Keeps the first `count` of the numbers. The memory stays.
    pub fn cut(&mut self, count: usize)
        ensures { self.new ≡ take count self.old }
    {
        cut_marked(&mut self.order, &mut self.marks, count);
    }
}

/// Keeps the first `count` of some marked numbers, and takes the marks of the others off.
pub(crate) fn cut_marked(order: &mut Vec<u32>, marks: &mut Vec<bool>, count: usize)
    requires { AreMarked order.old.items marks.old.items }
    ensures order { order.new.items ≡ take count order.old.items }
    ensures marked { AreMarked order.new.items marks.new.items }
{
    if count >= order.len() {
        return;
    }
    unmark(marks, &order[count..]);
    order.truncate(count);
}

/// Takes the marks of these numbers off.
fn unmark(marks: &mut Vec<bool>, numbers: &[u32])
    requires { All (λ n. n < length marks.old.items) numbers.now }
    ensures { (k : ℕ) → slice_index_or marks.new.items k false
        ≡ (if list_any (nat_eq k) numbers.now then false
        else slice_index_or marks.old.items k false) }
{
    for number in numbers {
        marks[*number as usize] = false;
    }
}

/// Gives the number a mark, where it has none yet: it and those below it get one that is off.
fn extend_to(marks: &mut Vec<bool>, number: u32) -> Result<(), AllocError>
    ensures kept { (k : ℕ)
        → slice_index_or marks.new.items k false ≡ slice_index_or marks.old.items k false }
    ensures reached { OnOk result (number < length marks.new.items) }
{
    let index = number as usize;
    if index < marks.len() {
        return Ok(());
    }
    marks.resize(index + 1, false)
}
