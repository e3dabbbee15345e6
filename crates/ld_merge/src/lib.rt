//! The items of all processors of a kernel, merged by time.
#![tactic(auto)]

mod entry;
mod head;
mod least;
mod merged;

pub use entry::{Entry, MergeFault, Refusal, Taker};
pub use merged::merge;
