//! What a task has open, each with the line of its event.

use crate::flags::Flags;
use ld_trace::{Event, Lock, State};

/// A lock that a task holds, and where it acquired it.
#[derive(Clone, Copy, Debug, PartialEq, Eq)]
pub struct Hold<'a> {
    pub lock: Lock<'a>,
    /// The subclass that it was acquired as, from 1 to 7; 0 where none was named.
    pub sub: u8,
    /// The number, in the stream, of the line of its acquisition.
    pub line: u64,
    /// The frame of its task there, by how many events of the trace stand before its enter; `None`
    /// outside frames.
    pub frame: Option<u64>,
}

/// A handler that a task is in, and where it entered it.
#[derive(Clone, Copy, Debug, PartialEq, Eq)]
pub struct Handler {
    pub state: State,
    /// The number, in the stream, of the line of its enter.
    pub line: u64,
    /// How many events of the trace stand before its enter.
    pub place: u64,
    /// The flags of the task around it.
    pub outer: Flags,
}

/// What the task of a line holds there.
#[derive(Debug, Drop)]
pub struct HeldAt<'a> {
    /// The event of the line.
    pub event: Event<'a>,
    /// The locks that its task holds just before it in the frame that it is in, in order of acquisition.
    pub holds: Vec<Hold<'a>>,
    /// The handlers that the task is in just before it, the outermost first.
    pub handlers: Vec<Handler>,
}
