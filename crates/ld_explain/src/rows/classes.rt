//! Rows of all classes and of all dependencies.

use crate::rows::lines::Placing;
use crate::rows::origins::{origin_of, taken_of};
use crate::rows::violations::class_of;
use ld_overview::{ClassRow as Shown, Overview, Witness};
use ld_rows::{At, ClassRow, EdgeRow};
use ld_source_map::Maps;
use std::alloc::{AllocError, Global};

/// Every class, in the order of a report.
pub fn class_rows<'a>(
    alloc: Global,
    placing: Placing<'_, 'a>,
    maps: &Maps<'_>,
    overview: &Overview<'a>,
) -> Result<Vec<ClassRow<'a>>, AllocError> {
    let mut rows = Vec::with_capacity(alloc, overview.classes.len())?;
    for row in &overview.classes {
        rows.push(class_row(alloc, placing, maps, row)?)?;
    }
    Ok(rows)
}

fn class_row<'a>(
    alloc: Global,
    placing: Placing<'_, 'a>,
    maps: &Maps<'_>,
    row: &Shown<'a>,
) -> Result<ClassRow<'a>, AllocError> {
    let origin = origin_of(alloc, maps, row.class)?;
    let taken = taken_of(alloc, maps, row.class)?;
    let [in_hard, on_hard, in_soft, on_soft] = row.usage.first;
    Ok(ClassRow {
        class: class_of(row.class),
        marks: row.usage.bits.marks(),
        first: [
            first_at(placing, in_hard),
            first_at(placing, on_hard),
            first_at(placing, in_soft),
            first_at(placing, on_soft),
        ],
        origin,
        taken,
    })
}

/// Where a bit was first seen, if it was.
fn first_at<'a>(placing: Placing<'_, 'a>, first: Option<Witness>) -> Option<At<'a>> {
    match first {
        Some(first) => Some(placing.at(first)),
        None => None,
    }
}

/// Every dependency, in the order of a report.
pub fn edge_rows<'a>(
    alloc: Global,
    placing: Placing<'_, 'a>,
    overview: &Overview<'a>,
) -> Result<Vec<EdgeRow<'a>>, AllocError> {
    let places = places_by_number(alloc, overview)?;
    let mut rows = Vec::with_capacity(alloc, overview.dependencies.len())?;
    for row in &overview.dependencies {
        rows.push(EdgeRow {
            from: place_of(&places, row.edge.from),
            to: place_of(&places, row.edge.to),
            at: placing.at(row.first),
        })?;
    }
    Ok(rows)
}

/// For each class, by its number, its place in the order of a report.
fn places_by_number(alloc: Global, overview: &Overview<'_>) -> Result<Vec<usize>, AllocError> {
    let mut places = vec![in alloc; 0; overview.classes.len()]?;
    for (place, row) in overview.classes.iter().enumerate() {
        if let Some(slot) = places.get_mut(row.number as usize) {
            *slot = place;
        }
    }
    Ok(places)
}

/// The place of the class with this number.
fn place_of(places: &[usize], number: u32) -> usize {
    places.get(number as usize).copied().unwrap_or(0)
}
