//! An order of numbered classes that is kept as a list: a class's rank is its place in it.
//!
//! The list is a ring of nodes with links to both sides. Node 0 is the head, and class c is node c + 1. Each node has
//! a label, and labels rise along the ring from the head on, so that two classes are compared by one look at each.
#![tactic(auto)]

mod labels;
mod moves;
mod order;
mod ring;
mod sorted;

pub use order::{MOST_ORDERED_CLASSES, Order};
