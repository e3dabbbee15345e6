//! To how many classes walks of dependencies lead from each, and from how many they lead to it.
//!
//! That takes time linear in the dependencies wherever a component has one other at most that directly leads to it,
//! or that directly follows it. Where several come together, `merged` follows the classes that lead there.

use crate::components::Components;
use crate::merged::led_to;
use crate::order::Order;
use std::alloc::{AllocError, Global};

/// For each class, by their numbers, how far walks of dependencies lead. A class on a cycle leads to itself.
#[derive(Drop)]
pub struct Walks {
    /// To how many classes walks lead from it.
    reaches: Vec<u64>,
    /// From how many classes walks lead to it.
    reached_from: Vec<u64>,
}

impl Walks {
    /// Those of the classes of these components.
    ///
    /// # Errors
    ///
    /// `AllocError` where memory was refused.
    pub fn of(alloc: Global, components: Components) -> Result<Walks, AllocError> {
        let Components { of, edges } = components;
        let order = Order::of(alloc, &of, edges)?;
        let counts = led_to(alloc, &order.sizes, &order.edges)?;
        let reached_from = of_classes(alloc, &of, &order, &counts)?;
        let order = order.turned();
        let counts = led_to(alloc, &order.sizes, &order.edges)?;
        let reaches = of_classes(alloc, &of, &order, &counts)?;
        Ok(Walks {
            reaches,
            reached_from,
        })
    }

    /// To how many classes walks lead from this one.
    pub fn reaches(&self, class: u32) -> u64 {
        self.reaches.get(class as usize).copied().unwrap_or(0)
    }

    /// From how many classes walks lead to this one.
    pub fn reached_from(&self, class: u32) -> u64 {
        self.reached_from.get(class as usize).copied().unwrap_or(0)
    }
}

/// For each class what was counted of other components for its own, by their places, and the classes of its own if
/// that has a cycle.
fn of_classes(
    alloc: Global,
    of: &[u32],
    order: &Order,
    counts: &[u64],
) -> Result<Vec<u64>, AllocError> {
    let mut all = Vec::with_capacity(alloc, of.len())?;
    for part in of {
        all.push(match order.place(*part) {
            Some(place) => {
                let count = counts.get(place as usize).copied().unwrap_or(0);
                count.saturating_add(order.inside(place))
            }
            None => 0,
        })?;
    }
    Ok(all)
}
