//! What is asked of a book, and the text that answers it.
ghost use Rattle.std.specs.Prelude.{◌≡◌, IfOk, length};
ghost use Rattle.ld_texts.specs.List.{IsClassList, every_class, list_classes};
ghost use Rattle.ld_texts.specs.Stats.{IsStats};
ghost use Rattle.ld_texts.specs.declared.wanted.Wanted.TheVariants.{Stats};

use crate::figures::{Figures, all_figures};
use crate::list::{class_text, classes_text, dependencies_text};
use crate::stats::stats_text;
use crate::writing::Seen;
use ld_overview::Book;
use ld_places::ShownPlaces;
use std::alloc::{AllocError, Global};
use std::thread::Threads;

/// What is asked of a book.
#[derive(Clone, Copy, Debug, PartialEq, Eq)]
pub enum Wanted<'w> {
    /// The list of its classes.
    List(Listing<'w>),
    /// Figures of the traces and of what they show, one a line.
    Stats,
}

/// What is listed.
#[derive(Clone, Copy, Debug, PartialEq, Eq)]
pub enum Listing<'w> {
    /// Every class, in the order of a report, but `L!read` right behind `L`.
    Classes,
    /// Every class, and under each the dependencies that begin with it.
    Dependencies,
    /// The class of this name.
    Class(&'w str),
}

/// The answer on a book of a stream whose lines are shown at these places. That many threads read its traces at once.
///
/// # Errors
///
/// `AllocError` where memory was refused.
pub fn text_of<R: Threads + Sync>(
    rt: &R,
    alloc: Global,
    book: &Book<'_>,
    places: &ShownPlaces<'_>,
    wanted: Wanted<'_>,
    threads: usize,
) -> Result<Vec<u8>, AllocError>
    ensures classes { wanted.entry ≡ list_classes → IfOk result (λ text. IsClassList book.now text.items) }
    ensures stats { wanted.entry ≡ Stats → IfOk result (λ text.
        IsStats book.now (length places.now.files.now) text.items) }
{
    match wanted {
        Wanted::List(listing) => list_of(rt, alloc, book, places, listing, threads),
        Wanted::Stats => stats_text(rt, alloc, book, places.files, threads),
    }
}

/// The list that is wanted.
fn list_of<R: Threads + Sync>(
    rt: &R,
    alloc: Global,
    book: &Book<'_>,
    places: &ShownPlaces<'_>,
    listing: Listing<'_>,
    threads: usize,
) -> Result<Vec<u8>, AllocError>
    ensures { listing.entry ≡ every_class → IfOk result (λ text. IsClassList book.now text.items) }
{
    let figures = all_figures(rt, alloc, book, threads)?;
    list_with(alloc, book, places, listing, &figures)
}

/// The list with these figures of the classes.
fn list_with(
    alloc: Global,
    book: &Book<'_>,
    places: &ShownPlaces<'_>,
    listing: Listing<'_>,
    figures: &[Figures],
) -> Result<Vec<u8>, AllocError>
    ensures { listing.entry ≡ every_class → IfOk result (λ text. IsClassList book.now text.items) }
{
    match listing {
        Listing::Classes => classes_text(alloc, book, figures),
        Listing::Dependencies => {
            let seen = Seen::new(alloc, book, places)?;
            dependencies_text(alloc, book, &seen, figures)
        }
        Listing::Class(name) => {
            let seen = Seen::new(alloc, book, places)?;
            class_text(alloc, book, &seen, figures, name.as_bytes())
        }
    }
}
