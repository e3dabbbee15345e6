//! Names of classes, numbered, and the sets of their usage bits.
#![tactic(auto)]

mod bytes;
mod list;
mod names;
mod usage;

pub use bytes::same_bytes;
pub use list::ClassList;
pub use names::{ClassName, Classes, MOST_NAMES};
pub use usage::Usage;
