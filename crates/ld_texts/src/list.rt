//! The texts of `list`: all classes, their dependencies, or one class.
ghost use Rattle.std.specs.Prelude.{◌≡◌, ◌++◌, IfOk, None, OnOk, option_map};
ghost use Rattle.ld_class.specs.Names.{plain_class};
ghost use Rattle.ld_texts.specs.List.{IsClassList, class_line, figures_text, head_text, is_under, level_of, lines_below};

use crate::figures::{Figures, figures_of};
use crate::writing::{Seen, is_called, write_at, write_marks};
use ld_overview::{
    Book, ClassName, ClassRow, DependencyRow, Overview, Witness, class_rows, dependency_rows,
    has_readers, sort_by_locks, write_class, write_held, write_waited,
};
use std::alloc::{AllocError, Global};
use std::io::Write;

/// How the row of a class stands in the list.
#[derive(Clone, Copy, Debug, PartialEq, Eq)]
enum Level {
    /// By its name.
    Own,
    /// As `!read`, under the row of the lock whose readers wait for it.
    OfLock,
}

/// Every class by its name.
pub(crate) fn classes_text(
    alloc: Global,
    book: &Book<'_>,
    figures: &[Figures],
) -> Result<Vec<u8>, AllocError>
    ensures { IfOk result (λ text. IsClassList book.now text.items) }
{
    let mut rows = class_rows(alloc, book)?;
    sort_by_locks(&mut rows);
    let mut text = Vec::new(alloc);
    write_classes(&mut text, figures, &rows)?;
    Ok(text)
}

/// Writes the rows of classes, one below another.
fn write_classes(
    text: &mut Vec<u8>,
    figures: &[Figures],
    rows: &[ClassRow<'_>],
) -> Result<(), AllocError>
    ensures { OnOk result (text.new.items ≡ text.old.items ++ lines_below figures.now None rows.now) }
{
    let mut above = None;
    for row in rows {
        write_row(text, figures, row, level_of(above, row.class))?;
        above = Some(row.class);
    }
    Ok(())
}

/// Every class by its name, and its dependencies under it.
pub(crate) fn dependencies_text(
    alloc: Global,
    book: &Book<'_>,
    seen: &Seen<'_, '_, '_, '_>,
    figures: &[Figures],
) -> Result<Vec<u8>, AllocError> {
    let mut classes = class_rows(alloc, book)?;
    sort_by_locks(&mut classes);
    let rows = dependency_rows(alloc, book)?;
    let starts = starts(alloc, classes.len(), &rows)?;
    let mut text = Vec::new(alloc);
    write_dependencies(&mut text, seen, figures, &classes, &rows, &starts)?;
    Ok(text)
}

/// Writes the rows of classes, and under each the dependencies that it begins: those from its start on.
fn write_dependencies(
    text: &mut Vec<u8>,
    seen: &Seen<'_, '_, '_, '_>,
    figures: &[Figures],
    classes: &[ClassRow<'_>],
    rows: &[DependencyRow<'_>],
    starts: &[usize],
) -> Result<(), AllocError> {
    let mut above = None;
    for class in classes {
        let level = level_of(above, class.class);
        write_row(text, figures, class, level)?;
        let start = starts
            .get(class.number as usize)
            .copied()
            .unwrap_or(rows.len());
        write_followers(text, seen, rows, start, class.number, level)?;
        above = Some(class.class);
    }
    Ok(())
}

/// How the row of a class stands below that of the class above.
fn level_of(above: Option<ClassName<'_>>, class: ClassName<'_>) -> Level
    ensures { result ≡ level_of (option_map plain_class above.entry) (plain_class class.entry) }
{
    if is_under(above, class) {
        Level::OfLock
    } else {
        Level::Own
    }
}

/// Whether recursive readers of locks of the class above wait for this one.
fn is_under(above: Option<ClassName<'_>>, class: ClassName<'_>) -> bool
    ensures { result ≡ is_under (option_map plain_class above.entry) (plain_class class.entry) }
{
    match above {
        Some(above) => has_readers(above, class),
        None => false,
    }
}

/// Where in these rows the dependencies of each class begin, by the numbers of so many classes.
fn starts(
    alloc: Global,
    count: usize,
    rows: &[DependencyRow<'_>],
) -> Result<Vec<usize>, AllocError> {
    let mut starts = vec![in alloc; rows.len(); count]?;
    for (at, row) in rows.iter().enumerate() {
        if let Some(start) = starts.get_mut(row.edge.from as usize) {
            *start = at.min(*start);
        }
    }
    Ok(starts)
}

/// The class of this name, with where its usage bits were first seen, under what it was held, and what was
/// acquired under it.
pub(crate) fn class_text(
    alloc: Global,
    book: &Book<'_>,
    seen: &Seen<'_, '_, '_, '_>,
    figures: &[Figures],
    name: &[u8],
) -> Result<Vec<u8>, AllocError> {
    let overview = Overview::new(alloc, book)?;
    let mut text = Vec::new(alloc);
    write_called(&mut text, seen, figures, &overview, name)?;
    if text.is_empty() {
        text.extend_from_slice(name)?;
        text.extend_from_slice(b" not seen\n")?;
    }
    Ok(text)
}

/// Writes the classes of this name.
fn write_called(
    text: &mut Vec<u8>,
    seen: &Seen<'_, '_, '_, '_>,
    figures: &[Figures],
    overview: &Overview<'_>,
    name: &[u8],
) -> Result<(), AllocError> {
    for class in &overview.classes {
        if is_called(class.class, name) {
            write_row(text, figures, class, Level::Own)?;
            write_usage(text, seen, class)?;
            write_around(text, seen, &overview.dependencies, class.number)?;
        }
    }
    Ok(())
}

/// Writes `CLASS {USAGE} acquired N reached-from N reaches N`.
fn write_row(
    text: &mut Vec<u8>,
    figures: &[Figures],
    row: &ClassRow<'_>,
    level: Level,
) -> Result<(), AllocError>
    ensures { OnOk result (text.new.items ≡ text.old.items ++ class_line figures.now level row.now) }
{
    write_head(text, row.class, level)?;
    text.extend_from_slice(b" ")?;
    write_marks(text, &row.usage)?;
    write_figures(text, figures_of(figures, row.number))
}

/// Writes a class as it stands at this level.
fn write_head(text: &mut Vec<u8>, class: ClassName<'_>, level: Level) -> Result<(), AllocError>
    ensures { OnOk result (text.new.items ≡ text.old.items ++ head_text level (plain_class class.entry)) }
{
    match level {
        Level::Own => write_class(text, class),
        Level::OfLock => text.extend_from_slice(b"  !read"),
    }
}

/// Writes what is counted of a class, and ends the line.
fn write_figures(text: &mut Vec<u8>, figures: Figures) -> Result<(), AllocError>
    ensures { OnOk result (text.new.items ≡ text.old.items ++ figures_text figures) }
{
    let acquired = figures.acquired;
    let from = figures.reached_from;
    let to = figures.reaches;
    writeln!(
        text,
        " acquired {acquired} reached-from {from} reaches {to}"
    )
    .map_err(|_| AllocError)
}

/// Writes what was acquired under a class, `  -> CLASS at LABEL FILE:LINE`: of the rows from this place on
/// those that it begins.
fn write_followers(
    text: &mut Vec<u8>,
    seen: &Seen<'_, '_, '_, '_>,
    rows: &[DependencyRow<'_>],
    start: usize,
    class: u32,
    level: Level,
) -> Result<(), AllocError> {
    for at in start..rows.len() {
        let row = rows[at];
        if row.edge.from != class {
            return Ok(());
        }
        match level {
            Level::Own => text.extend_from_slice(b"  -> ")?,
            Level::OfLock => text.extend_from_slice(b"    -> ")?,
        }
        write_waited(text, row.to)?;
        write_first(text, seen, row.first)?;
    }
    Ok(())
}

/// Writes under what a class was acquired, and then what was acquired under it.
fn write_around(
    text: &mut Vec<u8>,
    seen: &Seen<'_, '_, '_, '_>,
    rows: &[DependencyRow<'_>],
    class: u32,
) -> Result<(), AllocError> {
    for row in rows {
        if row.edge.to == class {
            text.extend_from_slice(b"  under ")?;
            write_held(text, row.from)?;
            write_first(text, seen, row.first)?;
        }
    }
    for row in rows {
        if row.edge.from == class {
            text.extend_from_slice(b"  over ")?;
            write_waited(text, row.to)?;
            write_first(text, seen, row.first)?;
        }
    }
    Ok(())
}

/// Writes where each usage bit of a class was first seen.
fn write_usage(
    text: &mut Vec<u8>,
    seen: &Seen<'_, '_, '_, '_>,
    row: &ClassRow<'_>,
) -> Result<(), AllocError> {
    let [in_hard, on_hard, in_soft, on_soft] = row.usage.first;
    write_bit(text, b"  in hard at ", seen, in_hard)?;
    write_bit(text, b"  on hard at ", seen, on_hard)?;
    write_bit(text, b"  in soft at ", seen, in_soft)?;
    write_bit(text, b"  on soft at ", seen, on_soft)
}

/// Writes where a bit was first seen, behind these words, if the class has it.
fn write_bit(
    text: &mut Vec<u8>,
    words: &[u8],
    seen: &Seen<'_, '_, '_, '_>,
    first: Option<Witness>,
) -> Result<(), AllocError> {
    let Some(at) = first else {
        return Ok(());
    };
    text.extend_from_slice(words)?;
    write_at(text, seen, at)?;
    text.push(b'\n')?;
    Ok(())
}

/// Writes where a dependency was first seen, behind one of its classes.
fn write_first(
    text: &mut Vec<u8>,
    seen: &Seen<'_, '_, '_, '_>,
    first: Witness,
) -> Result<(), AllocError> {
    text.extend_from_slice(b" at ")?;
    write_at(text, seen, first)?;
    text.push(b'\n')?;
    Ok(())
}
