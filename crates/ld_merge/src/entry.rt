//! What is merged, and what takes it.
ghost use Rattle.std.specs.Prelude.{◌≡◌, ◌++◌, ◌∷◌, [], List, OnOk};
ghost use Rattle.ld_merge.specs.declared.entry.Entry.{Entry};
ghost use Rattle.ld_merge.specs.declared.entry.MergeFault.TheVariants.{Memory, Refused};

use ld_pages::{Fault, Item};
use std::alloc::AllocError;

/// An item of a processor.
#[derive(Clone, Copy, Debug, PartialEq, Eq)]
pub struct Entry {
    /// The number of the processor.
    pub processor: usize,
    pub item: Item,
}

/// What takes entries doesn't take this one.
#[derive(Clone, Copy, Debug, PartialEq, Eq)]
pub struct Refusal;

/// Why items can't be merged.
#[derive(Clone, Copy, Debug, PartialEq, Eq)]
pub enum MergeFault {
    /// This processor's pages have this fault.
    Pages(usize, Fault),
    /// An entry was not taken.
    Refused,
    /// A growth of memory was refused.
    Memory,
    /// There are 2^64 - 1 items, or more.
    Many,
}

impl From<AllocError> for MergeFault {
    ghost from_gives = { λ _ fault. fault ≡ Memory };

    fn from(_refusal: AllocError) -> MergeFault {
        MergeFault::Memory
    }
}

impl From<Refusal> for MergeFault {
    ghost from_gives = { λ _ fault. fault ≡ Refused };

    fn from(_refusal: Refusal) -> MergeFault {
        MergeFault::Refused
    }
}

/// What takes the merged items, one after the other.
pub trait Taker {
    // What it has taken so far.
    ghost taken: { Self → List Entry };

    /// Takes an entry.
    ///
    /// # Errors
    ///
    /// Where it takes none any more.
    fn take(&mut self, entry: Entry) -> Result<(), Refusal>
        ensures { OnOk result (taken self.new ≡ taken self.old ++ entry ∷ []) };
}
