//! The chains of some traces: the sequences of classes that a task holds in one frame just after it acquired there.

use crate::hints::{Hints, mixed};
use indexmap::IndexSet;
use std::alloc::{AllocError, Global};

/// The number that stands for a chain of no class.
pub(crate) const NO_CHAIN: u64 = 0;

/// The number that stands for a chain, that of what is held before it and its last class. Different chains have
/// different ones but by a chance of one in 2^64 for each two.
pub(crate) fn chain_of(before: u64, class: u32) -> u64 {
    mixed(before, class as u64 + 1)
}

/// Distinct chains, by the numbers that stand for them.
#[derive(Drop)]
pub(crate) struct Chains {
    chains: IndexSet<u64>,
    hints: Hints,
}

impl Chains {
    pub(crate) fn new(alloc: Global) -> Result<Chains, AllocError> {
        let hints = Hints::new(alloc)?;
        Ok(Chains {
            chains: IndexSet::new(alloc),
            hints,
        })
    }

    /// How many there are.
    pub(crate) fn count(&self) -> u64 {
        self.chains.len() as u64
    }

    /// The chain was seen.
    #[inline(always)]
    pub(crate) fn add(&mut self, chain: u64) -> Result<(), AllocError> {
        if self.hints.of(chain) != chain {
            self.chains.insert(chain)?;
            self.hints.note(chain, chain);
        }
        Ok(())
    }

    /// Those of another list were seen too.
    pub(crate) fn add_all(&mut self, other: &Chains) -> Result<(), AllocError> {
        for chain in other.chains.iter() {
            self.chains.insert(*chain)?;
        }
        Ok(())
    }
}
