//! The rows of what a batch shows: dependencies and usage bits by the places of its classes, words by the numbers
//! that a scan has for these.
ghost use Rattle.std.specs.Prelude.{◌≡◌, length, slice_index_or};
ghost use Rattle.ld_batch.specs.Inner.Rows.{edges_of};

use ld_class::Usage;
use ld_rules::Witness;

/// A dependency, and where it was first seen.
#[derive(Clone, Copy, Debug, PartialEq, Eq)]
pub struct WitnessedEdge {
    /// The place among the batch's classes of the one that was held.
    pub from: u32,
    /// The place of the one that was acquired under it.
    pub to: u32,
    /// The trace, and the line in the stream.
    pub witness: Witness,
}

/// Dependencies from up to 64 classes with neighbouring numbers to one class, which were first seen at one place.
/// Whoever read the traces has a number for each class; it is no place among the batch's classes.
#[derive(Clone, Copy, Debug)]
pub struct WitnessedWord {
    /// The number that it has for this block and this class: no union reads it.
    pub number: u32,
    /// The number of the block of the classes that were held: its first class has 64 times this number.
    pub block: u32,
    /// The number of the class that was acquired under them.
    pub to: u32,
    /// Bit k is on where class k of the block was held.
    pub bits: u64,
    /// The trace, and the line in the stream.
    pub witness: Witness,
}

/// The dependencies of a batch by words.
#[derive(Clone, Copy)]
pub struct Words<'b> {
    /// The words, each dependency in one bit of one of them.
    pub words: &'b [WitnessedWord],
    /// By the number of a class its place among the batch's.
    pub places: &'b [u32],
}

impl Words<'_> {
    /// What the list has for this number, or 0 past its end: the class's place, where it has one. Takes no memory.
    pub fn place(&self, number: u32) -> u32
        ensures { result ≡ slice_index_or self.now.places.now number 0 }
    {
        match self.places.get(number as usize) {
            Some(place) => *place,
            None => 0,
        }
    }

    /// How many dependencies there are. Takes no memory.
    pub fn count(&self) -> usize
        ensures { result ≡ length (edges_of self.now.places.now self.now.words.now) }
    {
        let mut count = 0;
        for word in self.words {
            count += word.bits.count_ones() as usize;
        }
        count
    }
}

/// A usage bit of a class, and where it was first seen.
#[derive(Clone, Copy, Debug, PartialEq, Eq)]
pub struct WitnessedUse {
    /// The place of the class among the batch's.
    pub class: u32,
    /// The one bit.
    pub bit: Usage,
    /// The trace, and the line in the stream.
    pub witness: Witness,
}
