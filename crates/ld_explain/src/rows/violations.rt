//! Rows of violations.
ghost use Rattle.std.specs.Prelude.{◌≡◌, All, IfOk, List, OnOk, map, option_map};
ghost use Rattle.ld_trace.specs.Sources.{PlainSource};
ghost use Rattle.ld_class.specs.Names.{plain_class};
ghost use Rattle.ld_explain.specs.Rows.{class_of_row, row_said};
ghost use Rattle.ld_explain.specs.Steps.{AreFirst, IsAtFirst, violation_said};

use crate::rows::lines::Placing;
use crate::rows::needed::{Needed, NeededEnd};
use crate::violations::{Ends, Step, Violation};
use ld_overview::{ClassName, Witness};
use ld_rows::{Class, Use, Violation as Row};
use ld_trace::State;
use std::alloc::{AllocError, Global};

/// A class of a row.
pub fn class_of(class: ClassName<'_>) -> Class<'_>
    ensures { class_of_row result ≡ plain_class class.entry }
{
    Class {
        name: class.name,
        sub: class.sub,
    }
}

/// These violations, whose groups have these numbers, in turn. Their dependencies and ends are put behind those that
/// are needed already.
pub fn violation_rows<'a>(
    alloc: Global,
    placing: Placing<'_, 'a>,
    violations: &[Violation<'a, 'a>],
    numbers: &[usize],
    needed: &mut Needed<'a>,
) -> Result<Vec<Row<'a>>, AllocError>
    ensures said { IfOk result (λ rows. map row_said rows.items ≡ map violation_said violations.now) }
    ensures first { (sources : List PlainSource) → All (IsAtFirst sources) needed.old.steps.items
        → All (AreFirst sources) violations.now
        → OnOk result (All (IsAtFirst sources) needed.new.steps.items) }
{
    let mut rows = Vec::with_capacity(alloc, violations.len())?;
    for violation in violations {
        let group = numbers.get(rows.len()).copied().unwrap_or(0);
        rows.push(violation_row(alloc, placing, violation, group, needed)?)?;
    }
    Ok(rows)
}

/// A violation of the group at this place.
fn violation_row<'a>(
    alloc: Global,
    placing: Placing<'_, 'a>,
    violation: &Violation<'a, 'a>,
    group: usize,
    needed: &mut Needed<'a>,
) -> Result<Row<'a>, AllocError>
    ensures said { IfOk result (λ row. row_said row ≡ violation_said violation.now) }
    ensures first { (sources : List PlainSource) → All (IsAtFirst sources) needed.old.steps.items
        → AreFirst sources violation.now
        → OnOk result (All (IsAtFirst sources) needed.new.steps.items) }
{
    let dependencies = places_of(alloc, &violation.steps, needed)?;
    let ends = ends_of(violation.ends, needed)?;
    let classes = classes_of(alloc, violation)?;
    Ok(Row {
        kind: violation.kind,
        state: ends.state,
        text: violation.line,
        at: placing.at(pointed_at(violation)),
        classes,
        dependencies,
        safe: ends.safe,
        exposed: ends.exposed,
        group,
        // It is told once the lines of its dependencies were looked up.
        common: None,
    })
}

/// The places of these steps, which are put behind those that are needed already.
fn places_of<'a>(
    alloc: Global,
    steps: &[Step<'a>],
    needed: &mut Needed<'a>,
) -> Result<Vec<usize>, AllocError>
    ensures { (sources : List PlainSource) → All (IsAtFirst sources) needed.old.steps.items
        → All (IsAtFirst sources) steps.now
        → OnOk result (All (IsAtFirst sources) needed.new.steps.items) }
{
    let mut places = Vec::with_capacity(alloc, steps.len())?;
    for step in steps {
        places.push(needed.step(*step)?)?;
    }
    Ok(places)
}

/// The line to point at.
fn pointed_at(violation: &Violation<'_, '_>) -> Witness {
    match (violation.ends, violation.steps.first()) {
        (Some(ends), _) => ends.exposed_at,
        (None, Some(step)) => step.first,
        // Each violation has an end or a dependency.
        (None, None) => Witness { number: 0, line: 0 },
    }
}

/// The classes of a cycle or a path in turn, or the one of a conflict.
fn classes_of<'a>(
    alloc: Global,
    violation: &Violation<'_, 'a>,
) -> Result<Vec<Class<'a>>, AllocError> {
    let mut classes = Vec::new(alloc);
    match (violation.steps.first(), violation.ends) {
        (Some(step), _) => classes.push(class_of(step.dependency.from))?,
        (None, Some(ends)) => classes.push(class_of(ends.exposed))?,
        (None, None) => {}
    }
    for step in &violation.steps {
        classes.push(class_of(step.dependency.to))?;
    }
    Ok(classes)
}

/// Both ends, by their places.
#[derive(Clone, Copy)]
struct Places {
    state: Option<State>,
    safe: Option<usize>,
    exposed: Option<usize>,
}

/// Both ends of a violation, if it has a state.
fn ends_of<'a>(ends: Option<Ends<'a>>, needed: &mut Needed<'a>) -> Result<Places, AllocError>
    ensures state { IfOk result (λ places. places.state ≡ option_map (λ ends. ends.state) ends.entry) }
    ensures steps { needed.new.steps.items ≡ needed.old.steps.items }
{
    let Some(ends) = ends else {
        return Ok(Places {
            state: None,
            safe: None,
            exposed: None,
        });
    };
    let safe = needed.end(NeededEnd {
        class: ends.safe,
        state: ends.state,
        used: Use::Safe,
        at: ends.safe_at,
    })?;
    let exposed = needed.end(NeededEnd {
        class: ends.exposed,
        state: ends.state,
        used: Use::Exposed,
        at: ends.exposed_at,
    })?;
    Ok(Places {
        state: Some(ends.state),
        safe: Some(safe),
        exposed: Some(exposed),
    })
}
