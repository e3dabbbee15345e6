//! Every class and every dependency of a book, in the order of a report.
ghost use Rattle.std.specs.Prelude.{IfOk};
ghost use Rattle.ld_overview.specs.Overview.{AreClassRows, AreDependencyRows, AreNamedRows, AreNumberedRows};

use ld_book::{Book, ClassName, Edge, UsageRow, Witness};
use std::alloc::{AllocError, Global};

/// A class.
#[derive(Clone, Copy, Debug)]
pub struct ClassRow<'a> {
    /// Its name.
    pub class: ClassName<'a>,
    /// Its number in the book.
    pub number: u32,
    /// Its usage, and where each bit was first seen.
    pub usage: UsageRow,
}

/// A dependency.
#[derive(Clone, Copy, Debug)]
pub struct DependencyRow<'a> {
    /// The class that was held.
    pub from: ClassName<'a>,
    /// The class that was acquired under it.
    pub to: ClassName<'a>,
    /// The numbers of both in the book.
    pub edge: Edge,
    /// Where it was first seen.
    pub first: Witness,
}

/// What a book shows, whole.
#[derive(Drop)]
pub struct Overview<'a> {
    /// The classes, by their names.
    pub classes: Vec<ClassRow<'a>>,
    /// The dependencies, by the names of their classes.
    pub dependencies: Vec<DependencyRow<'a>>,
}

impl<'a> Overview<'a> {
    /// That of this book.
    ///
    /// # Errors
    ///
    /// `AllocError` if memory was refused.
    pub fn new(alloc: Global, book: &Book<'a>) -> Result<Overview<'a>, AllocError>
        ensures classes { IfOk result (λ overview. AreClassRows book.now overview.classes.items) }
        ensures dependencies { IfOk result (λ overview.
            AreDependencyRows book.now overview.dependencies.items) }
    {
        let classes = class_rows(alloc, book)?;
        let dependencies = dependency_rows(alloc, book)?;
        Ok(Overview {
            classes,
            dependencies,
        })
    }
}

/// The classes of a book, by their names.
///
/// # Errors
///
/// `AllocError` if memory was refused.
pub fn class_rows<'a>(alloc: Global, book: &Book<'a>) -> Result<Vec<ClassRow<'a>>, AllocError>
    ensures { IfOk result (λ rows. AreClassRows book.now rows.items) }
{
    let mut rows = numbered_rows(alloc, book)?;
    rows.sort_unstable_by_key(|row| row.class);
    Ok(rows)
}

/// The classes of a book, by their numbers.
fn numbered_rows<'a>(alloc: Global, book: &Book<'a>) -> Result<Vec<ClassRow<'a>>, AllocError>
    ensures { IfOk result (λ rows. AreNumberedRows book.now rows.items) }
{
    let classes = book.classes();
    let usage = book.usage_rows();
    let mut rows = Vec::with_capacity(alloc, classes.len())?;
    for number in 0..classes.len() as u32 {
        rows.push(ClassRow {
            class: classes.name(number),
            number,
            usage: usage[number as usize],
        })?;
    }
    Ok(rows)
}

/// The dependencies of a book, by the names of their classes.
///
/// # Errors
///
/// `AllocError` if memory was refused.
pub fn dependency_rows<'a>(
    alloc: Global,
    book: &Book<'a>,
) -> Result<Vec<DependencyRow<'a>>, AllocError>
    ensures { IfOk result (λ rows. AreDependencyRows book.now rows.items) }
{
    let mut rows = named_rows(alloc, book)?;
    rows.sort_unstable_by_key(|row| (row.from, row.to));
    Ok(rows)
}

/// The dependencies of a book with the names of their classes, by the numbers of the edges.
fn named_rows<'a>(alloc: Global, book: &Book<'a>) -> Result<Vec<DependencyRow<'a>>, AllocError>
    ensures { IfOk result (λ rows. AreNamedRows book.now rows.items) }
{
    let classes = book.classes();
    let dependencies = book.dependencies();
    let mut rows = Vec::with_capacity(alloc, dependencies.len())?;
    for dependency in dependencies {
        rows.push(DependencyRow {
            from: classes.name(dependency.edge.from),
            to: classes.name(dependency.edge.to),
            edge: dependency.edge,
            first: dependency.first,
        })?;
    }
    Ok(rows)
}
