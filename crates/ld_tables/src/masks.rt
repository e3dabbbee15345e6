//! Words, dependencies from up to 64 classes with neighbouring numbers to one class, and masks of them.
ghost use Rattle.std.specs.Prelude.{◌≡◌, ◌<◌, ◌≤◌, ◌+◌, ◌||◌, Bool, ℕ, IfSome, OnOk, length, slice_index_or};
ghost use Rattle.std.specs.List.{list_any};
ghost use Rattle.ld_tables.specs.declared.masks.Mask.{Mask};
ghost use Rattle.ld_tables.specs.Inner.Edges.{any_bit};

use std::alloc::AllocError;

/// How many seats there are.
const SEATS: usize = 32;

/// Where the masks of blocks stand: each block has a seat, and the first mask of those with one seat takes it. It has no
/// meaning: whoever reads a place compares the word that stands there.
#[derive(Drop)]
pub(crate) struct Seats {
    /// One more than a place; 0 if the seat is free.
    taken: [u8; SEATS],
}

impl Seats {
    /// All free.
    pub(crate) fn new() -> Seats {
        Seats { taken: [0; SEATS] }
    }

    /// The place of the mask that has the seat of this block.
    #[inline(always)]
    pub(crate) fn of(&self, block: u32) -> Option<usize> {
        (self.taken[block as usize % SEATS] as usize).checked_sub(1)
    }

    /// The mask at this place takes the seat of this block, unless it is taken.
    #[inline(always)]
    pub(crate) fn take(&mut self, block: u32, place: usize) {
        let seat = block as usize % SEATS;
        if self.taken[seat] == 0 && place < u8::MAX as usize {
            self.taken[seat] = (place + 1) as u8;
        }
    }
}

/// Puts a bit of a word on, in the mask at this place, which is of the word, or else in one more.
pub(crate) fn add_bit(
    masks: &mut Vec<Mask>,
    at: Option<usize>,
    word: u32,
    place: u32,
) -> Result<(), AllocError>
    requires within { IfSome at (λ at. at < length masks.old.items) }
    requires word { IfSome at (λ at. (d : Mask) → (slice_index_or masks.old.items at d).word ≡ word) }
    requires place { place < 64 }
    ensures some { OnOk result (0 < length masks.new.items) }
    ensures few { OnOk result (length masks.new.items ≤ length masks.old.items + 1) }
    ensures words { OnOk result ((test : ℕ → Bool) → list_any (λ m. test m.word) masks.new.items
        ≡ (list_any (λ m. test m.word) masks.old.items || test word)) }
    ensures bits { OnOk result ((test : ℕ → ℕ → Bool) → any_bit test masks.new.items
        ≡ (any_bit test masks.old.items || test word place)) }
{
    let bit = 1 << place;
    if let Some(at) = at {
        masks[at].bits |= bit;
        return Ok(());
    }
    masks.push(Mask { word, bits: bit })?;
    Ok(())
}

/// A block of 64 classes with neighbouring numbers, and a class that is acquired under some of them.
#[derive(Clone, Copy, Debug, PartialEq, Eq, Hash)]
pub struct Word {
    /// The number of the block: its first class is 64 times as much.
    pub block: u32,
    /// The number of the class that is acquired.
    pub to: u32,
}

/// Some dependencies of a word.
#[derive(Clone, Copy)]
pub struct Mask {
    /// The number of the word.
    pub word: u32,
    /// Bit k is on where there is one from class k of the block.
    pub bits: u64,
}

/// The dependencies of a word that were told first at one line.
#[derive(Clone, Copy, Debug)]
pub struct NewEdges {
    /// The number of the word. It says nothing to those who don't know the words.
    pub number: u32,
    /// The word.
    pub word: Word,
    /// Bit k is on where there is one from class k of the block.
    pub bits: u64,
    /// The number of the line in the stream.
    pub line: u64,
}
