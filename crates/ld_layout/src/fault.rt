//! What is wrong with a text.
ghost use Rattle.std.specs.Prelude.{◌≡◌};
ghost use Rattle.ld_layout.specs.declared.fault.ReadError.TheVariants.{Memory};

use std::alloc::{AllocError, AllocFailed};

/// What is wrong with a line.
#[derive(Clone, Copy, Debug, PartialEq, Eq)]
pub enum Wrong {
    /// It isn't `name: NAME`.
    Name,
    /// It isn't `ID: NUMBER`.
    Id,
    /// It isn't `format:`.
    Heading,
    /// It isn't `field:`, `offset:`, `size:` and `signed:`, each behind a tab and before a `;`.
    Field,
    /// What stands behind `field:` doesn't end with a name, or a name with brackets.
    Declaration,
    /// In the place of a number aren't decimal digits, or 32 bits don't hold it.
    Number,
    /// Behind `signed:` is neither 0 nor 1.
    Sign,
}

/// A part of a page.
#[derive(Clone, Copy, Debug, PartialEq, Eq)]
pub enum Part {
    /// Its time, `timestamp`.
    Timestamp,
    /// How many bytes of data it has, `commit`.
    Commit,
    /// Its data, `data`.
    Contents,
}

/// What is wrong with a text.
#[derive(Clone, Copy, Debug, PartialEq, Eq)]
pub enum Fault {
    /// The line with this number, from 1, has this wrong.
    Line(usize, Wrong),
    /// A format ends before its line `print fmt:`.
    Ends,
    /// A text of pages has a line `print fmt:`.
    Printed,
    /// No line of a text of pages tells of this part.
    Missing(Part),
    /// The part has another size than it has in any kernel.
    Size(Part),
    /// The parts don't stand in the page, the data last.
    Impossible,
}

/// Why a text wasn't read.
#[derive(Clone, Copy, Debug, PartialEq, Eq)]
pub enum ReadError {
    /// A growth of memory was refused.
    Memory,
    Fault(Fault),
}

impl From<AllocError> for ReadError {
    ghost from_gives = { λ _ e. e ≡ Memory };

    fn from(_refusal: AllocError) -> ReadError {
        ReadError::Memory
    }
}

impl<T: Drop> From<AllocFailed<T>> for ReadError {
    ghost from_gives = { λ _ e. e ≡ Memory };

    fn from(_refusal: AllocFailed<T>) -> ReadError {
        ReadError::Memory
    }
}
