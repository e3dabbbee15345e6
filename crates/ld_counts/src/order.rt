//! The components of some dependencies, each before those that it leads to.

use crate::components::Followers;
use ld_graph::Edge;
use std::alloc::{AllocError, Global};

/// What stands for the place of a component without a dependency.
const NO_PLACE: u32 = u32::MAX;

/// The components that have a dependency, in an order in which each stands before those that it leads to.
#[derive(Drop)]
pub(crate) struct Order {
    /// The place of each component in the order, by the class that stands for it.
    places: Vec<u32>,
    /// How many classes each component has, by their places.
    pub(crate) sizes: Vec<u64>,
    /// Which components have a cycle, by their places.
    cyclic: Vec<bool>,
    /// The dependencies between different components, each once, by their places and in the order of the first.
    pub(crate) edges: Vec<Edge>,
}

impl Order {
    /// That of the components of some classes, between which there are these dependencies. A class of each component
    /// stands for it.
    pub(crate) fn of(
        alloc: Global,
        of: &[u32],
        dependencies: Vec<Edge>,
    ) -> Result<Order, AllocError> {
        let count = dependencies.len();
        let followers = Followers::of(alloc, of.len(), dependencies)?;
        let parts = in_order(alloc, of, &followers)?;
        let mut order = Order {
            places: vec![in alloc; NO_PLACE; of.len()]?,
            sizes: vec![in alloc; 0; parts.len()]?,
            cyclic: vec![in alloc; false; parts.len()]?,
            edges: Vec::with_capacity(alloc, count)?,
        };
        for (place, part) in (0..count_of(parts.len())).zip(&parts) {
            if let Some(at) = order.places.get_mut(*part as usize) {
                *at = place;
            }
        }
        order.count_sizes(of);
        order.add_edges(&parts, &followers)?;
        Ok(order)
    }

    /// The place of the component that this class stands for, if it has a dependency.
    pub(crate) fn place(&self, part: u32) -> Option<u32> {
        match self.places.get(part as usize) {
            Some(place) if *place != NO_PLACE => Some(*place),
            _ => None,
        }
    }

    /// To how many classes of its own component walks lead from each at this place.
    pub(crate) fn inside(&self, place: u32) -> u64 {
        match self.cyclic.get(place as usize) {
            Some(true) => self.sizes.get(place as usize).copied().unwrap_or(0),
            _ => 0,
        }
    }

    /// The same with each dependency in the other direction.
    pub(crate) fn turned(self) -> Order {
        let mut order = self;
        let last = count_of(order.sizes.len()).saturating_sub(1);
        for place in order.places.iter_mut() {
            if *place != NO_PLACE {
                *place = last.saturating_sub(*place);
            }
        }
        order.sizes.reverse();
        order.cyclic.reverse();
        for edge in order.edges.iter_mut() {
            *edge = Edge {
                from: last.saturating_sub(edge.to),
                to: last.saturating_sub(edge.from),
            };
        }
        order
            .edges
            .sort_unstable_by_key(|edge| (edge.from, edge.to));
        order
    }

    /// Counts the classes of each component.
    fn count_sizes(&mut self, of: &[u32]) {
        for part in of {
            if let Some(place) = self.place(*part) {
                if let Some(size) = self.sizes.get_mut(place as usize) {
                    *size = size.saturating_add(1);
                }
            }
        }
    }

    /// Adds the dependencies of the components, and says which have a cycle.
    fn add_edges(&mut self, parts: &[u32], followers: &Followers) -> Result<(), AllocError> {
        for (from, part) in (0..count_of(parts.len())).zip(parts) {
            for follower in followers.of_class(*part) {
                if *follower == *part {
                    if let Some(cyclic) = self.cyclic.get_mut(from as usize) {
                        *cyclic = true;
                    }
                } else if let Some(to) = self.place(*follower) {
                    self.edges.push(Edge { from, to })?;
                }
            }
        }
        Ok(())
    }
}

/// The components that have a dependency, by the classes that stand for them, each before those that it leads to, and
/// near these where it can be.
fn in_order(alloc: Global, of: &[u32], followers: &Followers) -> Result<Vec<u32>, AllocError> {
    let mut before: Vec<u32> = vec![in alloc; 0; of.len()]?;
    for part in 0..count_of(of.len()) {
        for follower in followers.of_class(part) {
            if *follower != part {
                raise(&mut before, *follower);
            }
        }
    }
    let mut next = Vec::new(alloc);
    for part in 0..count_of(of.len()) {
        let is_first = before.get(part as usize).copied() == Some(0);
        if is_first && !followers.of_class(part).is_empty() {
            next.push(part)?;
        }
    }
    let mut order = Vec::with_capacity(alloc, of.len())?;
    // Each component is put in order once at most.
    for _ in 0..of.len() {
        let Some(part) = next.pop() else {
            break;
        };
        order.push(part)?;
        for follower in followers.of_class(part) {
            if *follower != part && is_last_before(&mut before, *follower) {
                next.push(*follower)?;
            }
        }
    }
    Ok(order)
}

/// So many: classes or components, of which there are never 2^32.
pub(crate) fn count_of(many: usize) -> u32 {
    u32::try_from(many).unwrap_or(u32::MAX)
}

/// One more stands before this one.
fn raise(before: &mut [u32], part: u32) {
    if let Some(count) = before.get_mut(part as usize) {
        *count = count.saturating_add(1);
    }
}

/// Whether all that stand before this one were counted down, this one with them.
fn is_last_before(before: &mut [u32], part: u32) -> bool {
    match before.get_mut(part as usize) {
        Some(count) => {
            *count = count.saturating_sub(1);
            *count == 0
        }
        None => false,
    }
}
