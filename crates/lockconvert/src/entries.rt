//! The items of all processors in one list.

use ld_merge::{Entry, Refusal, Taker};

/// What a merge has handed over.
#[derive(Drop)]
pub struct Entries {
    pub items: Vec<Entry>,
}

impl Taker for Entries {
    ghost taken = { λ entries. entries.items.items };

    fn take(&mut self, entry: Entry) -> Result<(), Refusal> {
        match self.items.push(entry) {
            Ok(()) => Ok(()),
            Err(_) => Err(Refusal),
        }
    }
}
