//! The shown walks from one class to many, by one search that goes from class to successor.
#![tactic(auto)]

mod leading;
mod tree;

pub use leading::Leading;
pub use tree::Tree;
