//! The report of the traces that a book lists, and what it comes to.
#![tactic(auto)]

mod labels;
mod lines;
mod text;
mod verdict;

pub use ld_book::Book;
pub use text::report;
pub use verdict::{Verdict, verdict_of};
