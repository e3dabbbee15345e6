//! The calls that stand behind violations.

use ld_rows::{Frame, Line, Place, Rows, Seen, Since};
use std::alloc::{AllocError, Global};

/// The calls that led to the lines behind violations.
pub(crate) fn calls_of<'r>(
    alloc: Global,
    rows: &'r Rows<'_>,
) -> Result<Vec<&'r Frame>, AllocError> {
    let mut calls = Vec::new(alloc);
    for dependency in &rows.dependencies {
        add_seen(&mut calls, &dependency.seen)?;
    }
    for end in &rows.ends {
        add_seen(&mut calls, &end.seen)?;
        add_since(&mut calls, &end.hard)?;
        add_since(&mut calls, &end.soft)?;
    }
    Ok(calls)
}

fn add_seen<'r>(calls: &mut Vec<&'r Frame>, seen: &'r Seen<'_>) -> Result<(), AllocError> {
    add_line(calls, &seen.line)?;
    for held in &seen.held {
        add_line(calls, &held.line)?;
    }
    for handler in &seen.handlers {
        add_line(calls, &handler.line)?;
    }
    Ok(())
}

fn add_since<'r>(calls: &mut Vec<&'r Frame>, since: &'r Since<'_>) -> Result<(), AllocError> {
    match since {
        Since::Line(line) => add_line(calls, line),
        _ => Ok(()),
    }
}

fn add_line<'r>(calls: &mut Vec<&'r Frame>, line: &'r Line<'_>) -> Result<(), AllocError> {
    if let Some(Place::Called(frames)) = &line.place {
        for frame in frames {
            calls.push(frame)?;
        }
    }
    Ok(())
}
