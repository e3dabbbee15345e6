//! The numbers of the traces in which something was first seen.
ghost use Rattle.std.specs.Prelude.{◌≡◌, ◌||◌, ◌==◌, ℕ, [], OnOk, nat_eq};
ghost use Rattle.std.specs.List.{list_any};

use indexmap::IndexSet;
use ld_rules::Witness;
use std::alloc::{AllocError, Global};
use std::marker::Model;

/// Some numbers of traces.
#[derive(Drop)]
pub struct Firsts {
    numbers: IndexSet<u64>,
}

impl Model for Firsts {
    ghost use Rattle.std.specs.Prelude.{List, ℕ};

    ghost Value = { List ℕ };

    ghost view = { λ f. f.numbers.keys };
}

impl Firsts {
    /// None. Takes no memory.
    pub fn new(alloc: Global) -> Firsts
        ensures { result ≡ [] }
    {
        Firsts {
            numbers: IndexSet::new(alloc),
        }
    }

    /// Notes the number of the trace of this witness.
    ///
    /// # Errors
    ///
    /// `AllocError` where a growth of memory was refused.
    pub fn note(&mut self, first: Witness) -> Result<(), AllocError>
        ensures { OnOk result ((number : ℕ) → list_any (nat_eq number) self.new
            ≡ (number == first.number || list_any (nat_eq number) self.old)) }
    {
        self.numbers.insert(first.number)?;
        Ok(())
    }

    /// Whether this number was noted. Takes no memory.
    pub fn has(&self, number: u64) -> bool
        ensures { result ≡ list_any (nat_eq number) self.now }
    {
        self.numbers.contains(&number)
    }
}
