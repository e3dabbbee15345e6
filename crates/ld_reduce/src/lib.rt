//! The stream of those traces that are the first to show something.
#![tactic(auto)]

mod book;
mod firsts;
mod reduce;
mod written;

pub use book::reduction;
pub use ld_book::{Batch, BatchRefusal, Book, UsageRow};
pub use written::{append_ended, is_ended};
