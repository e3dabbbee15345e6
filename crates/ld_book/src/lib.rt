//! The book: what many traces show together, kept up to date as each one is added.
#![tactic(auto)]

mod book;
mod listing;
mod traces;

pub use book::{AddRefusal, BatchRefusal, Book, Refusal};
pub use ld_class::{ClassName, Classes};
pub use ld_facts::{Batch, Series, Witness};
pub use ld_graph::{Edge, Graph};
pub use ld_union::{
    Alarms, ConflictRow, CycleRow, Findings, ForbiddenRow, ForbiddenRows, Rows, UsageRow, Walk,
    WalkNames, Witnessed,
};
pub use listing::Totals;
pub use traces::Traces;
