//! What the dependencies of inversions have in common.
ghost use Rattle.std.specs.Prelude.{◌≡◌, IfOk, map};
ghost use Rattle.ld_explain.specs.Rows.{row_said};

use crate::common::common_of;
use crate::rows::seen::Telling;
use crate::violations::Step;
use ld_overview::Book;
use ld_rows::{Common, Kind, Violation as Row};
use std::alloc::AllocError;

/// These violations, of which each inversion tells what the first occurrences of its dependencies have in common. `steps`
/// are the dependencies by their places.
pub fn with_common<'a>(
    telling: &Telling<'_, 'a>,
    book: &Book<'a>,
    steps: &[Step<'a>],
    violations: Vec<Row<'a>>,
) -> Result<Vec<Row<'a>>, AllocError>
    ensures { IfOk result (λ rows. map row_said rows.items ≡ map row_said violations.entry.items) }
{
    let mut rows = Vec::with_capacity(telling.lines.alloc, violations.len())?;
    for violation in violations {
        rows.push(told(telling, book, steps, violation)?)?;
    }
    Ok(rows)
}

/// The same of one violation.
fn told<'a>(
    telling: &Telling<'_, 'a>,
    book: &Book<'a>,
    steps: &[Step<'a>],
    violation: Row<'a>,
) -> Result<Row<'a>, AllocError>
    ensures { IfOk result (λ row. row_said row ≡ row_said violation.entry) }
{
    let common = match violation.kind {
        Kind::Inversion => common_at(telling, book, steps, &violation.dependencies)?,
        Kind::Recursion | Kind::Conflict | Kind::Forbidden => None,
    };
    Ok(Row {
        common,
        ..violation
    })
}

/// What the first occurrences of the dependencies at these places have in common.
fn common_at<'a>(
    telling: &Telling<'_, 'a>,
    book: &Book<'a>,
    steps: &[Step<'a>],
    places: &[usize],
) -> Result<Option<Common<'a>>, AllocError> {
    let mut own = Vec::with_capacity(telling.lines.alloc, places.len())?;
    for place in places {
        if let Some(step) = steps.get(*place) {
            own.push(*step)?;
        }
    }
    common_of(telling.lines.alloc, book, telling.sightings, &own)
}
