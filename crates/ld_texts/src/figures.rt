//! What is counted of each class.
ghost use Rattle.std.specs.Prelude.{◌≡◌};
ghost use Rattle.ld_texts.specs.List.{figures_of};

use crate::shape::components;
use ld_counts::{Walks, acquisitions};
use ld_overview::Book;
use std::alloc::{AllocError, Global};
use std::thread::Threads;

/// What is counted of a class.
#[derive(Clone, Copy, Debug, PartialEq, Eq)]
pub(crate) struct Figures {
    /// How often it is acquired.
    pub acquired: u64,
    /// How many classes have a path to it.
    pub reached_from: u64,
    /// How many classes it has a path to.
    pub reaches: u64,
}

/// The figures of a class that isn't there.
const NO_FIGURES: Figures = Figures {
    acquired: 0,
    reached_from: 0,
    reaches: 0,
};

/// What is counted of each class of a book, by their numbers. That many threads read its traces at once.
pub(crate) fn all_figures<R: Threads + Sync>(
    rt: &R,
    alloc: Global,
    book: &Book<'_>,
    threads: usize,
) -> Result<Vec<Figures>, AllocError> {
    let acquired = acquisitions(rt, alloc, book.classes(), book.listed(), threads)?;
    let walks = Walks::of(alloc, components(alloc, book)?)?;
    joined(alloc, book.classes().len() as u32, &acquired, &walks)
}

/// The figures of so many classes.
fn joined(
    alloc: Global,
    count: u32,
    acquired: &[u64],
    walks: &Walks,
) -> Result<Vec<Figures>, AllocError> {
    let mut figures = Vec::with_capacity(alloc, count as usize)?;
    for class in 0..count {
        figures.push(Figures {
            acquired: acquired.get(class as usize).copied().unwrap_or(0),
            reached_from: walks.reached_from(class),
            reaches: walks.reaches(class),
        })?;
    }
    Ok(figures)
}

/// The figures of one class. They are 0 if there is none of this number.
pub(crate) fn figures_of(figures: &[Figures], class: u32) -> Figures
    ensures { result ≡ figures_of figures.now class }
{
    match figures.get(class as usize) {
        Some(figures) => *figures,
        None => NO_FIGURES,
    }
}
