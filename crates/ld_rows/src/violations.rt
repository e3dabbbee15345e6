//! Violations, and what stands behind them.

use crate::classes::{Class, ClassRow, EdgeRow};
use crate::lines::{At, Line};
use ld_trace::State;

/// All that a report says of a stream, and what stands behind it.
///
/// A dependency that several violations have stands once in `dependencies`, an end once in `ends`: a violation names
/// them by their places there. So do groups with violations.
#[derive(Drop)]
pub struct Rows<'a> {
    pub totals: Totals,
    /// The refused traces, in the order of the report.
    pub refused: Vec<Refused<'a>>,
    /// The violations, in the order of the report.
    pub violations: Vec<Violation<'a>>,
    /// How many violations there are, with those that aren't among these rows since fewer were asked for.
    pub count: u64,
    /// How many violations are left out since they are known. They aren't counted.
    pub known: u64,
    /// The violations by what they share, in the order of the first one of each group.
    pub groups: Vec<Group>,
    /// The dependencies of the violations' cycles and paths, each once, in the order in which they are first needed.
    pub dependencies: Vec<Dependency<'a>>,
    /// The ends of conflicts and of forbidden paths, each once, in the order in which they are first needed.
    pub ends: Vec<End<'a>>,
    /// Every class of the accepted traces, in the order of a report, if they were asked for.
    pub classes: Vec<ClassRow<'a>>,
    /// Every dependency of the accepted traces, in the order of a report, if they were asked for.
    pub edges: Vec<EdgeRow<'a>>,
}

/// The first line of a report.
#[derive(Clone, Copy, Debug, PartialEq, Eq)]
pub struct Totals {
    pub traces: u64,
    pub refused: u64,
    pub events: u64,
    pub classes: u64,
    pub dependencies: u64,
}

/// A trace that was refused.
#[derive(Drop)]
pub struct Refused<'a> {
    /// Its faulty line.
    pub line: Line<'a>,
    /// The name of the fault.
    pub fault: &'a str,
}

/// What a violation is.
#[derive(Clone, Copy, Debug, PartialEq, Eq)]
pub enum Kind {
    /// A class that was acquired while a lock of it was held.
    Recursion,
    /// A dependency between two classes that is on a cycle.
    Inversion,
    /// A class that handlers acquire, and that is held where they can interrupt.
    Conflict,
    /// A path from a class that handlers acquire to one that is held where they can interrupt.
    Forbidden,
}

/// A violation.
#[derive(Drop)]
pub struct Violation<'a> {
    pub kind: Kind,
    /// The interrupts of a conflict or of a forbidden path; `None` for the other kinds.
    pub state: Option<State>,
    /// Its line in the report, without the end.
    pub text: &'a [u8],
    /// The line to point at: the first occurrence of its first dependency, or of a conflict or a forbidden path,
    /// where the class was first held with interrupts enabled.
    pub at: At<'a>,
    /// The classes of its cycle or path, in turn. A cycle ends with the class that it begins with, so a recursion has
    /// its class twice. A conflict has its class alone.
    pub classes: Vec<Class<'a>>,
    /// The places, in [`Rows::dependencies`], of the steps from each of these classes to the next.
    pub dependencies: Vec<usize>,
    /// The place, in [`Rows::ends`], of the end that handlers acquire, if it has a state.
    pub safe: Option<usize>,
    /// The place, in [`Rows::ends`], of the end that is held with interrupts enabled, if it has a state.
    pub exposed: Option<usize>,
    /// The place of its group in [`Rows::groups`].
    pub group: usize,
    /// What the first occurrences of an inversion's dependencies have in common; `None` for nothing.
    pub common: Option<Common<'a>>,
}

/// What the first occurrences of several dependencies have in common: one thing at least.
#[derive(Drop)]
pub struct Common<'a> {
    /// Whether they are in one trace, and by one task.
    pub is_one_task: bool,
    /// The locks that are held at each of them, in the same handler or outside any, and that let one of their tasks in at
    /// a time.
    pub locks: Vec<CommonLock<'a>>,
}

/// A lock that is held at several lines.
#[derive(Clone, Copy, Debug, PartialEq, Eq)]
pub struct CommonLock<'a> {
    /// The name of its class, L for L!read.
    pub name: &'a [u8],
    /// Which lock of the class, if the stream says so.
    pub instance: Option<&'a [u8]>,
    /// Whether its recursive readers wait for one of the tasks.
    pub is_written: bool,
}

/// Violations that share dependencies: two are in one group if they have one in common, or if a row of such others
/// lies between them.
#[derive(Drop)]
pub struct Group {
    /// Their places in [`Rows::violations`], which rise: one at least.
    pub violations: Vec<usize>,
    /// The dependency that most of them have: if it is reversed, most of them are solved. `None` for a conflict, which
    /// has no dependency.
    pub most: Option<Shared>,
}

/// A dependency that several violations have.
#[derive(Clone, Copy, Debug, PartialEq, Eq)]
pub struct Shared {
    /// Its place in [`Rows::dependencies`].
    pub dependency: usize,
    /// How many violations of the group have it.
    pub violations: u64,
}

/// A dependency of a violation, where it was first seen.
#[derive(Drop)]
pub struct Dependency<'a> {
    /// The class that is held.
    pub from: Class<'a>,
    /// The class that is acquired.
    pub to: Class<'a>,
    /// Its first occurrence. The locks are those that the task holds there in the same handler, or outside any.
    pub seen: Seen<'a>,
}

/// An end of a conflict or of a forbidden path, where it was first seen.
#[derive(Drop)]
pub struct End<'a> {
    pub class: Class<'a>,
    pub state: State,
    /// How the class is used.
    pub used: Use,
    /// The usage characters of the class.
    pub marks: [u8; 4],
    /// Its first occurrence. The locks are none at a safe end, and those of the class, in any handler, at an exposed
    /// one.
    pub seen: Seen<'a>,
    /// Since when hard interrupts are enabled just after it.
    pub hard: Since<'a>,
    /// Since when soft interrupts are enabled just after it.
    pub soft: Since<'a>,
}

/// How a class is used at an end.
#[derive(Clone, Copy, Debug, PartialEq, Eq)]
pub enum Use {
    /// Handlers of the state acquire it.
    Safe,
    /// It is held where handlers of the state can interrupt.
    Exposed,
}

/// Where something was first seen, and what its task had open just before.
#[derive(Drop)]
pub struct Seen<'a> {
    pub line: Line<'a>,
    /// The name of the task.
    pub task: &'a [u8],
    /// Locks that the task holds, in order of acquisition. What a writer holds, L and L!read, is one lock of a
    /// dependency.
    pub held: Vec<Held<'a>>,
    /// The handlers that the task is in, the outermost first.
    pub handlers: Vec<Handler<'a>>,
}

/// A lock that a task holds.
#[derive(Drop)]
pub struct Held<'a> {
    /// The class, L for L!read.
    pub class: Class<'a>,
    /// Which lock of the class, if the stream says so.
    pub instance: Option<&'a [u8]>,
    /// Whether its recursive readers wait for the task.
    pub is_written: bool,
    /// The line that acquired it.
    pub line: Line<'a>,
}

/// A handler that a task is in.
#[derive(Drop)]
pub struct Handler<'a> {
    pub state: State,
    /// The line that entered it.
    pub line: Line<'a>,
}

/// Since when interrupts are enabled.
#[derive(Drop)]
pub enum Since<'a> {
    /// They are disabled.
    Off,
    /// Since the trace began.
    Start,
    /// Since this line.
    Line(Line<'a>),
}
