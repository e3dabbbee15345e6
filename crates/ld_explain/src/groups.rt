//! Which violations stand together, since their circles or walks share dependencies.

use crate::violations::{Dependency, Violation};
use indexmap::IndexMap;
use std::alloc::{AllocError, Global};

/// A violation in its group.
#[derive(Clone, Copy, Debug, PartialEq, Eq, PartialOrd, Ord)]
pub struct Member {
    /// The place of the group's first violation.
    pub group: usize,
    /// The place of this one.
    pub place: usize,
}

/// The violations by their groups: two are in one group where their circles or walks share a dependency, or
/// where a row of such others lies between them. The groups, and the violations in each, come in the order
/// of their places.
pub fn grouped(alloc: Global, violations: &[Violation<'_, '_>]) -> Result<Vec<Member>, AllocError> {
    let mut groups = Groups {
        parents: Vec::with_capacity(alloc, violations.len())?,
    };
    let mut met = IndexMap::new(alloc);
    for (place, violation) in violations.iter().enumerate() {
        groups.parents.push(place)?;
        for step in &violation.steps {
            match met.get(&step.dependency) {
                Some(other) => groups.join(*other, place),
                None => {
                    met.insert(step.dependency, place)?;
                }
            }
        }
    }
    let mut members = Vec::with_capacity(alloc, violations.len())?;
    for place in 0..violations.len() {
        let group = groups.first(place);
        members.push(Member { group, place })?;
    }
    members.sort_unstable();
    Ok(members)
}

/// Places that lead to the first one of their group.
#[derive(Drop)]
struct Groups {
    /// Each leads to one that isn't behind it, the first one of a group to itself.
    parents: Vec<usize>,
}

impl Groups {
    /// The first place of a group. What leads there is halved on the way.
    fn first(&mut self, place: usize) -> usize {
        let mut at = place;
        for _ in 0..self.parents.len() {
            let parent = self.parent(at);
            if parent == at {
                return at;
            }
            let next = self.parent(parent);
            if let Some(parent) = self.parents.get_mut(at) {
                *parent = next;
            }
            at = next;
        }
        at
    }

    fn parent(&self, place: usize) -> usize {
        self.parents.get(place).copied().unwrap_or(place)
    }

    /// Makes one group of the groups of two places.
    fn join(&mut self, one: usize, other: usize) {
        let one = self.first(one);
        let other = self.first(other);
        if let Some(parent) = self.parents.get_mut(one.max(other)) {
            *parent = one.min(other);
        }
    }
}

/// The dependency that most violations of a group have, the first such one, and how many have it.
pub fn most_shared<'a>(
    alloc: Global,
    violations: &[Violation<'_, 'a>],
    members: &[Member],
) -> Result<Option<(Dependency<'a>, u64)>, AllocError> {
    let mut counts = IndexMap::new(alloc);
    for member in members {
        if let Some(violation) = violations.get(member.place) {
            for step in &violation.steps {
                let count: u64 = counts.get(&step.dependency).copied().unwrap_or(0);
                counts.insert(step.dependency, count.saturating_add(1))?;
            }
        }
    }
    let mut most = None;
    let mut least = 0;
    for (dependency, count) in &counts {
        if *count > least {
            least = *count;
            most = Some((*dependency, *count));
        }
    }
    Ok(most)
}
