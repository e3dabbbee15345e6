//! Which classes are near one.

use ld_counts::Followers;
use ld_overview::{DependencyRow, Edge};
use std::alloc::{AllocError, Global};

/// For each of so many classes, by their numbers, whether a walk of at most so many dependencies leads to it
/// from this one, or from it to this one.
pub fn near(
    alloc: Global,
    count: usize,
    dependencies: &[DependencyRow<'_>],
    class: u32,
    steps: u64,
) -> Result<Vec<bool>, AllocError> {
    let mut ahead = Vec::with_capacity(alloc, dependencies.len())?;
    let mut behind = Vec::with_capacity(alloc, dependencies.len())?;
    for row in dependencies {
        let Edge { from, to } = row.edge;
        ahead.push(Edge { from, to })?;
        behind.push(Edge { from: to, to: from })?;
    }
    let ahead = Followers::of(alloc, count, ahead)?;
    let behind = Followers::of(alloc, count, behind)?;
    let mut marks = reached(alloc, count, &ahead, class, steps)?;
    let others = reached(alloc, count, &behind, class, steps)?;
    for (mark, other) in marks.iter_mut().zip(others.iter()) {
        *mark = *mark || *other;
    }
    Ok(marks)
}

/// Which classes at most so many dependencies lead to from this one, where these follow each.
fn reached(
    alloc: Global,
    count: usize,
    followers: &Followers,
    class: u32,
    steps: u64,
) -> Result<Vec<bool>, AllocError> {
    let mut marks = vec![in alloc; false; count]?;
    let mut found = vec![in alloc; class]?;
    if let Some(mark) = marks.get_mut(class as usize) {
        *mark = true;
    }
    let mut begin = 0;
    for _ in 0..steps {
        let end = found.len();
        if begin == end {
            break;
        }
        for place in begin..end {
            let Some(at) = found.get(place).copied() else {
                break;
            };
            for next in followers.of_class(at) {
                if let Some(mark) = marks.get_mut(*next as usize) {
                    if !*mark {
                        *mark = true;
                        found.push(*next)?;
                    }
                }
            }
        }
        begin = end;
    }
    Ok(marks)
}
