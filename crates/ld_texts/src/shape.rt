//! The components of what a book shows.

use ld_counts::Components;
use ld_overview::Book;
use std::alloc::{AllocError, Global};

/// How many cyclic components have this number of classes.
#[derive(Clone, Copy, Debug, PartialEq, Eq)]
pub(crate) struct SizeCount {
    pub classes: u32,
    pub count: u64,
}

/// The components of the dependencies of a book.
pub(crate) fn components(alloc: Global, book: &Book<'_>) -> Result<Components, AllocError> {
    let dependencies = book.dependencies();
    let mut edges = Vec::with_capacity(alloc, dependencies.len())?;
    for dependency in dependencies {
        edges.push(dependency.edge)?;
    }
    Components::of(alloc, book.graph(), edges)
}

/// The number of classes of each cyclic component, in rising order.
pub(crate) fn cyclic_sizes(alloc: Global, book: &Book<'_>) -> Result<Vec<u32>, AllocError> {
    let components = components(alloc, book)?;
    let mut sizes: Vec<u32> = vec![in alloc; 0; components.of.len()]?;
    for part in &components.of {
        if let Some(size) = sizes.get_mut(*part as usize) {
            *size = size.saturating_add(1);
        }
    }
    let mut cyclic = Vec::new(alloc);
    for edge in &components.edges {
        if edge.from == edge.to {
            // Set to 0, so that it counts once.
            if let Some(size) = sizes.get_mut(edge.from as usize) {
                if *size > 0 {
                    cyclic.push(*size)?;
                    *size = 0;
                }
            }
        }
    }
    cyclic.sort_unstable();
    Ok(cyclic)
}

/// How often each of these sizes occurs. Equal ones stand together.
pub(crate) fn by_size(alloc: Global, sizes: &[u32]) -> Result<Vec<SizeCount>, AllocError> {
    let mut parts: Vec<SizeCount> = Vec::new(alloc);
    for size in sizes {
        match parts.last_mut() {
            Some(part) if part.classes == *size => part.count = part.count.saturating_add(1),
            _ => parts.push(SizeCount {
                classes: *size,
                count: 1,
            })?,
        }
    }
    Ok(parts)
}
