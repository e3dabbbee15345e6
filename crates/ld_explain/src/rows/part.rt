//! A part of a report.

use crate::groups::grouped;
use crate::violations::{Lines, Violation, at_most};
use std::alloc::{AllocError, Global};

/// Which violations and rejected traces of a report are told.
#[derive(Clone, Copy, Debug)]
pub struct Part<'w> {
    /// The report of what is new, whose violations are told; `None` for all.
    pub new: Option<&'w [u8]>,
    /// The most violations, and the most rejected traces; 0 for all.
    pub most: u64,
}

impl Part<'_> {
    /// Those of all violations of a report that are asked for, however many may be told. So many traces are rejected.
    pub(crate) fn asked<'r, 'a>(
        &self,
        alloc: Global,
        all: Vec<Violation<'r, 'a>>,
        refused: u64,
    ) -> Result<Vec<Violation<'r, 'a>>, AllocError> {
        let Some(new) = self.new else {
            return Ok(all);
        };
        // What is new has the lines of the report that stay, in turn.
        let mut lines = Lines::of_violations(new, refused);
        let mut next = lines.next_text();
        let mut asked = Vec::new(alloc);
        for violation in all {
            if violation.line == next {
                asked.push(violation)?;
                next = lines.next_text();
            }
        }
        Ok(asked)
    }

    /// Those that are told of so many: the first ones by their groups, as `explain` tells them.
    pub(crate) fn most<'r, 'a>(
        &self,
        alloc: Global,
        asked: Vec<Violation<'r, 'a>>,
    ) -> Result<Vec<Violation<'r, 'a>>, AllocError> {
        let count = at_most(asked.len(), self.most);
        if count == asked.len() {
            return Ok(asked);
        }
        let members = grouped(alloc, &asked)?;
        let mut are_told = vec![in alloc; false; asked.len()]?;
        for member in members.get(..count).unwrap_or(&[]) {
            if let Some(is_told) = are_told.get_mut(member.place) {
                *is_told = true;
            }
        }
        let mut told = Vec::with_capacity(alloc, count)?;
        for (violation, is_told) in asked.into_iter().zip(&are_told) {
            if *is_told {
                told.push(violation)?;
            }
        }
        Ok(told)
    }
}
