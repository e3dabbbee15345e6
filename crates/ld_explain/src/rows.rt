//! All that a report says, and what stands behind it, as rows.
ghost use Rattle.std.specs.Prelude.{◌≡◌, All, IfOk, List, length, map};
ghost use Rattle.ld_overview.specs.OfBook.Totals.{totals};
ghost use Rattle.ld_explain.specs.Rows.{AreRefusals, AreViolations, IsFirstRow, refusal_said, row_said};
ghost use Rattle.ld_explain.specs.Rows.{totals_row};
ghost use Rattle.ld_explain.specs.Faults.{fault_said};
ghost use Rattle.ld_explain.specs.Steps.{AreFirst, IsAtFirst, violation_said};
ghost use Rattle.ld_trace.specs.Sources.{PlainSource};

mod classes;
mod common;
mod groups;
mod lines;
mod needed;
mod origins;
mod part;
mod paths;
mod refused;
mod seen;
mod violations;

use crate::fault::{Fault, faults};
use crate::groups::grouped;
use crate::rows::classes::{class_rows, edge_rows};
use crate::rows::common::with_common;
use crate::rows::groups::{group_numbers, group_rows};
use crate::rows::lines::{Lines, Placing};
use crate::rows::needed::Needed;
pub use crate::rows::part::Part;
pub use crate::rows::paths::FilePaths;
use crate::rows::refused::refused_rows;
use crate::rows::seen::{Telling, dependency_rows, end_rows};
use crate::rows::violations::violation_rows;
use crate::sightings::{Sightings, Texts};
use crate::violations::{Choice, Violation as Chosen, at_most, chosen};
use ld_overview::{Book, Overview, Totals as BookTotals};
use ld_places::ShownPlaces;
use ld_rows::{ClassRow, Dependency, EdgeRow, End, Group, Refused, Rows, Totals, Violation};
use ld_source_map::Maps;
use ld_trace::Source;
use std::alloc::{AllocError, Global};

/// All that this report of a book says, and what stands behind it. `sources` are the traces of the book, each at the
/// place of its number, `places` says where their lines are shown, `paths` which files they say they come from, and
/// `maps` what is known of these lines. Every class and every dependency is told if `all` is set.
///
/// # Errors
///
/// `AllocError` where a growth of memory was refused.
pub fn rows_of<'a>(
    alloc: Global,
    book: &Book<'a>,
    report: &'a [u8],
    sources: &[Source<'a>],
    places: &ShownPlaces<'a>,
    paths: &'a FilePaths<'a>,
    maps: &Maps<'_>,
    all: bool,
) -> Result<Rows<'a>, AllocError>
    ensures totals { IfOk result (λ rows. rows.totals ≡ totals_row (totals book.now)) }
    ensures refused { IfOk result (λ rows.
        AreRefusals book.now (map refusal_said rows.refused.items)) }
    ensures violations { IfOk result (λ rows.
        AreViolations book.now (map row_said rows.violations.items)) }
    ensures count { IfOk result (λ rows. rows.count ≡ length rows.violations.items) }
    ensures first { IfOk result (λ rows. All (IsFirstRow book.now) rows.dependencies.items) }
{
    let chosen = chosen(alloc, book, report, &Choice::all())?;
    let faults = faults(alloc, book, &Choice::all())?;
    let placing = Placing {
        sources,
        places,
        paths,
    };
    rows_on(alloc, book, &chosen, &faults, placing, maps, all)
}

/// The same of a part of the report.
///
/// # Errors
///
/// `AllocError` where a growth of memory was refused.
pub fn rows_of_part<'a>(
    alloc: Global,
    book: &Book<'a>,
    report: &'a [u8],
    part: &Part<'_>,
    sources: &[Source<'a>],
    places: &ShownPlaces<'a>,
    paths: &'a FilePaths<'a>,
    maps: &Maps<'_>,
    all: bool,
) -> Result<Rows<'a>, AllocError>
    ensures totals { IfOk result (λ rows. rows.totals ≡ totals_row (totals book.now)) }
{
    let chosen = chosen(alloc, book, report, &Choice::all())?;
    let faults = faults(alloc, book, &Choice::all())?;
    let all_of_them = chosen.len() as u64;
    let asked = part.asked(alloc, chosen, book.totals().refused)?;
    let count = asked.len() as u64;
    let known = all_of_them.saturating_sub(count);
    let told = part.most(alloc, asked)?;
    let faults = faults
        .get(..at_most(faults.len(), part.most))
        .unwrap_or(&[]);
    let placing = Placing {
        sources,
        places,
        paths,
    };
    let rows = rows_on(alloc, book, &told, faults, placing, maps, all)?;
    Ok(Rows {
        count,
        known,
        ..rows
    })
}

/// What these violations and faults of a book say, and what stands behind them.
fn rows_on<'a>(
    alloc: Global,
    book: &Book<'a>,
    chosen: &[Chosen<'a, 'a>],
    faults: &[Fault],
    placing: Placing<'_, 'a>,
    maps: &Maps<'_>,
    all: bool,
) -> Result<Rows<'a>, AllocError>
    ensures totals { IfOk result (λ rows. rows.totals ≡ totals_row (totals book.now)) }
    ensures refused { IfOk result (λ rows.
        map refusal_said rows.refused.items ≡ map fault_said faults.now) }
    ensures violations { IfOk result (λ rows.
        map row_said rows.violations.items ≡ map violation_said chosen.now) }
    ensures count { IfOk result (λ rows. rows.count ≡ length rows.violations.items) }
    ensures first { All (AreFirst book.now) chosen.now
        → IfOk result (λ rows. All (IsFirstRow book.now) rows.dependencies.items) }
{
    let Stated {
        violations,
        groups,
        needed,
    } = stated_of(alloc, chosen, placing)?;
    let shown = shown_of(alloc, book, placing, maps, faults, &needed, violations)?;
    let tables = tables_of(alloc, book, placing, maps, all)?;
    Ok(Rows {
        totals: totals_of(book.totals()),
        refused: shown.refused,
        count: shown.violations.len() as u64,
        known: 0,
        violations: shown.violations,
        groups,
        dependencies: shown.dependencies,
        ends: shown.ends,
        classes: tables.classes,
        edges: tables.edges,
    })
}

/// The violations of a report, by what they are and by groups.
#[derive(Drop)]
struct Stated<'a> {
    violations: Vec<Violation<'a>>,
    groups: Vec<Group>,
    /// What stands behind them.
    needed: Needed<'a>,
}

/// These violations.
fn stated_of<'a>(
    alloc: Global,
    chosen: &[Chosen<'a, 'a>],
    placing: Placing<'_, 'a>,
) -> Result<Stated<'a>, AllocError>
    ensures violations { IfOk result (λ stated.
        map row_said stated.violations.items ≡ map violation_said chosen.now) }
    ensures first { (sources : List PlainSource) → All (AreFirst sources) chosen.now
        → IfOk result (λ stated. All (IsAtFirst sources) stated.needed.steps.items) }
{
    let members = grouped(alloc, chosen)?;
    let numbers = group_numbers(alloc, &members)?;
    let mut needed = Needed::new(alloc);
    let violations = violation_rows(alloc, placing, chosen, &numbers, &mut needed)?;
    let groups = group_rows(alloc, chosen, &members, &needed)?;
    Ok(Stated {
        violations,
        groups,
        needed,
    })
}

/// What lines of traces show.
#[derive(Drop)]
struct Shown<'a> {
    refused: Vec<Refused<'a>>,
    violations: Vec<Violation<'a>>,
    dependencies: Vec<Dependency<'a>>,
    ends: Vec<End<'a>>,
}

/// The traces with these faults, and these violations with what is needed of them.
fn shown_of<'a>(
    alloc: Global,
    book: &Book<'a>,
    placing: Placing<'_, 'a>,
    maps: &Maps<'_>,
    faults: &[Fault],
    needed: &Needed<'a>,
    violations: Vec<Violation<'a>>,
) -> Result<Shown<'a>, AllocError>
    ensures refused { IfOk result (λ shown.
        map refusal_said shown.refused.items ≡ map fault_said faults.now) }
    ensures violations { IfOk result (λ shown.
        map row_said shown.violations.items ≡ map row_said violations.entry.items) }
    ensures first { (sources : List PlainSource) → All (IsAtFirst sources) needed.now.steps.items
        → IfOk result (λ shown. All (IsFirstRow sources) shown.dependencies.items) }
{
    let sightings = Sightings::of(alloc, placing.sources, needed.witnesses(alloc)?)?;
    let texts = texts_of(alloc, placing.sources, &sightings, faults)?;
    let lines = Lines {
        alloc,
        placing,
        maps,
        texts: &texts,
    };
    let telling = Telling {
        lines: &lines,
        sightings: &sightings,
    };
    shown_by(&telling, book, faults, needed, violations)
}

/// The same, with what is told of lines.
fn shown_by<'a>(
    telling: &Telling<'_, 'a>,
    book: &Book<'a>,
    faults: &[Fault],
    needed: &Needed<'a>,
    violations: Vec<Violation<'a>>,
) -> Result<Shown<'a>, AllocError>
    ensures refused { IfOk result (λ shown.
        map refusal_said shown.refused.items ≡ map fault_said faults.now) }
    ensures violations { IfOk result (λ shown.
        map row_said shown.violations.items ≡ map row_said violations.entry.items) }
    ensures first { (sources : List PlainSource) → All (IsAtFirst sources) needed.now.steps.items
        → IfOk result (λ shown. All (IsFirstRow sources) shown.dependencies.items) }
{
    let refused = refused_rows(telling.lines, faults)?;
    let violations = with_common(telling, book, &needed.steps, violations)?;
    let dependencies = dependency_rows(telling, &needed.steps)?;
    let ends = end_rows(telling, book, &needed.ends)?;
    Ok(Shown {
        refused,
        violations,
        dependencies,
        ends,
    })
}

/// The first line of a report.
fn totals_of(totals: BookTotals) -> Totals
    ensures { result ≡ totals_row totals }
{
    Totals {
        traces: totals.traces,
        refused: totals.refused,
        events: totals.events,
        classes: totals.classes,
        dependencies: totals.dependencies,
    }
}

/// What the lines say that the rows name.
fn texts_of<'a>(
    alloc: Global,
    sources: &[Source<'a>],
    sightings: &Sightings<'a>,
    faults: &[Fault],
) -> Result<Texts<'a>, AllocError> {
    let mut wanted = sightings.lines(alloc)?;
    for fault in faults {
        wanted.push(fault.at)?;
    }
    Texts::of(alloc, sources, wanted)
}

/// All classes, and all dependencies between them.
#[derive(Drop)]
struct Tables<'a> {
    classes: Vec<ClassRow<'a>>,
    edges: Vec<EdgeRow<'a>>,
}

/// Those of a book, if they are asked for.
fn tables_of<'a>(
    alloc: Global,
    book: &Book<'a>,
    placing: Placing<'_, 'a>,
    maps: &Maps<'_>,
    all: bool,
) -> Result<Tables<'a>, AllocError> {
    if !all {
        return Ok(Tables {
            classes: Vec::new(alloc),
            edges: Vec::new(alloc),
        });
    }
    let overview = Overview::new(alloc, book)?;
    let classes = class_rows(alloc, placing, maps, &overview)?;
    let edges = edge_rows(alloc, placing, &overview)?;
    Ok(Tables { classes, edges })
}
