//! What is wrong with an event.

/// What is wrong with the bytes of an event.
#[derive(Clone, Copy, Debug, PartialEq, Eq)]
pub enum Wrong {
    /// It is shorter than its fields.
    Short,
    /// The number of its task is none: it is negative.
    Task,
    /// An acquisition is neither a trylock nor none, or checked in no known way.
    How,
    /// An acquisition is by no kind of reader or writer.
    Mode,
    /// A subclass above 255.
    Subclass,
    /// The name isn't in the event, or has an end of a line.
    Name,
    /// A number that its 32 bits don't hold.
    Large,
}
