//! Rows of groups.

use crate::groups::{Member, most_shared};
use crate::rows::needed::Needed;
use crate::violations::Violation;
use ld_rows::{Group, Shared};
use std::alloc::{AllocError, Global};

/// For each violation, by its place, the place of its group among all groups.
pub fn group_numbers(alloc: Global, members: &[Member]) -> Result<Vec<usize>, AllocError> {
    let mut numbers = vec![in alloc; 0; members.len()]?;
    let mut number: usize = 0;
    for group in members.chunk_by(|one, other| one.group == other.group) {
        for member in group {
            if let Some(slot) = numbers.get_mut(member.place) {
                *slot = number;
            }
        }
        number = number.saturating_add(1);
    }
    Ok(numbers)
}

/// The groups, each with the places of its violations.
pub fn group_rows<'a>(
    alloc: Global,
    violations: &[Violation<'_, 'a>],
    members: &[Member],
    needed: &Needed<'a>,
) -> Result<Vec<Group>, AllocError> {
    let mut rows = Vec::new(alloc);
    for group in members.chunk_by(|one, other| one.group == other.group) {
        let mut places = Vec::with_capacity(alloc, group.len())?;
        for member in group {
            places.push(member.place)?;
        }
        let most = shared(alloc, violations, group, needed)?;
        rows.push(Group {
            violations: places,
            most,
        })?;
    }
    Ok(rows)
}

/// The dependency that most violations of a group have.
fn shared<'a>(
    alloc: Global,
    violations: &[Violation<'_, 'a>],
    group: &[Member],
    needed: &Needed<'a>,
) -> Result<Option<Shared>, AllocError> {
    let Some((dependency, violations)) = most_shared(alloc, violations, group)? else {
        return Ok(None);
    };
    match needed.place(&dependency) {
        Some(dependency) => Ok(Some(Shared {
            dependency,
            violations,
        })),
        None => Ok(None),
    }
}
