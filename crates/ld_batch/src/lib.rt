//! What a batch of a few traces shows, as it is handed to what puts it together with others: its classes, its
//! dependencies and usage, each with its first witness, and hints of where its classes were had before.
#![tactic(auto)]

mod edges;
mod names;
mod rows;
mod shown;

pub use edges::Edges;
pub use names::{Hints, intern_all, place_in};
pub use rows::{WitnessedEdge, WitnessedUse, WitnessedWord, Words};
pub use shown::Shown;
