//! The components of some dependencies: classes between any two of which walks lead both ways are in one.

use ld_graph::{Edge, Graph};
use std::alloc::{AllocError, Global};

/// The components of some classes, and the dependencies between them. A class of each component stands for it.
#[derive(Drop)]
pub struct Components {
    /// For each class the one that stands for its component.
    pub of: Vec<u32>,
    /// The dependencies, between those that stand for the components of their classes.
    pub edges: Vec<Edge>,
}

/// The classes that directly follow each, by their numbers.
#[derive(Drop)]
pub struct Followers {
    /// Where those of a class begin.
    starts: Vec<usize>,
    classes: Vec<u32>,
}

impl Components {
    /// Those of the classes of a graph, between which there are these dependencies.
    ///
    /// # Errors
    ///
    /// `AllocError` where memory was refused.
    pub fn of(
        alloc: Global,
        graph: &Graph,
        dependencies: Vec<Edge>,
    ) -> Result<Components, AllocError> {
        let of = graph.components(alloc)?;
        let mut edges = dependencies;
        for edge in edges.iter_mut() {
            *edge = Edge {
                from: standing(&of, edge.from),
                to: standing(&of, edge.to),
            };
        }
        Ok(Components { of, edges })
    }
}

/// The one of these that stands at a class.
fn standing(of: &[u32], class: u32) -> u32 {
    of.get(class as usize).copied().unwrap_or(class)
}

impl Followers {
    /// Those of so many classes, by these edges, each of which counts once.
    ///
    /// # Errors
    ///
    /// `AllocError` where memory was refused.
    pub fn of(alloc: Global, classes: usize, edges: Vec<Edge>) -> Result<Followers, AllocError> {
        let mut edges = edges;
        edges.sort_unstable_by_key(|edge| (edge.from, edge.to));
        edges.dedup();
        let mut followers = Followers {
            starts: Vec::with_capacity(alloc, classes)?,
            classes: Vec::with_capacity(alloc, edges.len())?,
        };
        for edge in &edges {
            // Those between the last class with followers and this one have none.
            for _ in followers.starts.len()..(edge.from as usize).saturating_add(1) {
                followers.starts.push(followers.classes.len())?;
            }
            followers.classes.push(edge.to)?;
        }
        Ok(followers)
    }

    /// Those of a class.
    pub fn of_class(&self, class: u32) -> &[u32] {
        let Some(start) = self.starts.get(class as usize) else {
            return &[];
        };
        let end = match self.starts.get((class as usize).saturating_add(1)) {
            Some(end) => *end,
            None => self.classes.len(),
        };
        self.classes.get(*start..end).unwrap_or(&[])
    }
}
