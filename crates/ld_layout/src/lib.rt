//! What a kernel's texts say of the pages of its ring and of its events.
#![tactic(auto)]

mod fault;
mod field;
mod fields;
mod format;
mod line;
mod page;

pub use fault::{Fault, Part, ReadError, Wrong};
pub use field::{Field, Shape};
pub use format::{Format, format_of};
pub use page::header_page;
