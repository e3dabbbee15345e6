//! Classes of locks, and all dependencies between them.

use crate::lines::{At, Place};

/// A class of locks.
#[derive(Clone, Copy, Debug, PartialEq, Eq, Hash)]
pub struct Class<'a> {
    /// Its name in the stream; `L!read` is what recursive readers of L wait for.
    pub name: &'a [u8],
    /// Its subclass, from 1 to 7; 0 for none.
    pub sub: u8,
}

/// A class of the stream.
#[derive(Drop)]
pub struct ClassRow<'a> {
    pub class: Class<'a>,
    /// Its usage characters.
    pub marks: [u8; 4],
    /// Where it was first used so, in the order of the usage bits: acquired in a hard handler, held with hard
    /// interrupts enabled, acquired in a soft handler, held with both interrupts enabled.
    pub first: [Option<At<'a>>; 4],
    /// Where its locks come from, if a map says so.
    pub origin: Option<Origin>,
    /// Where its locks were acquired most often, if a map says so.
    pub taken: Option<Taken>,
}

/// Where the locks of a class come from.
#[derive(Drop)]
pub enum Origin {
    /// This variable of this file.
    Variable { name: Vec<u8>, file: Vec<u8> },
    /// They are initialised here.
    Initialised(Place),
    /// They are first locked here, and no call initialises them.
    FirstLocked(Place),
}

/// Where locks of a class were acquired most often.
#[derive(Drop)]
pub struct Taken {
    pub place: Place,
    /// How often.
    pub count: u64,
}

/// A dependency of the stream, whether a violation has it or not.
#[derive(Clone, Copy, Debug)]
pub struct EdgeRow<'a> {
    /// The class that is held, by its place in [`Rows::classes`](crate::Rows::classes).
    pub from: usize,
    /// The class that is acquired, by its place there.
    pub to: usize,
    /// Where it was first seen.
    pub at: At<'a>,
}
