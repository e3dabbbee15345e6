//! The texts of `list` (classes and dependencies) and `stats` (figures).
#![tactic(auto)]

mod figures;
mod list;
mod shape;
mod stats;
mod violations;
mod wanted;
mod writing;

pub use wanted::{Listing, Wanted, text_of};
