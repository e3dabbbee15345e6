//! What a scan keeps of tasks and of classes: the names of tasks, and by numbers stacks of held locks, open
//! frames, flags, chains, dependencies and usage bits.
#![tactic(auto)]

mod chains;
mod context;
mod edges;
mod facts;
mod held;
mod hints;
mod interrupts;
mod linking;
mod locks;
mod marked_set;
mod masks;
mod sparse_set;
mod tasks;
mod uses;

pub use context::Context;
pub use edges::EdgeFact;
pub use held::Held;
pub use interrupts::{Flag, Interrupts};
pub use linking::Kept;
pub use locks::Locks;
pub use marked_set::MarkedSet;
pub use masks::{NewEdges, Word};
pub use sparse_set::SparseSet;
pub use tasks::{MOST_KNOWN_TASKS, TaskNames};
pub use uses::{UsageFact, Uses};
