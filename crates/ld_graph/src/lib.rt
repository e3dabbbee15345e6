//! A graph between numbered classes: its lists of neighbours, distances and shown walks, an order that is kept
//! by repairs, and what walks lead to from some classes.
#![tactic(auto)]

mod affected;
mod components;
mod distance;
mod graph;
mod inside;
mod levels;
mod lists;
mod marks;
mod neighbours;
mod ranks;
mod reach;
mod reorder;
mod search;
mod shown;
mod sources;
mod trail;

pub use distance::Distance;
pub use graph::{Graph, MOST_GRAPH_CLASSES};
pub use inside::Distances;
pub use lists::{Counting, Lists, Reader, Steps};
pub use ranks::Insert;
pub use reach::Reach;

/// An edge, from one class to another.
#[derive(Clone, Copy, PartialEq, Eq, Hash, Debug)]
pub struct Edge {
    /// The class that the edge leaves.
    pub from: u32,
    /// The class that it enters.
    pub to: u32,
}
