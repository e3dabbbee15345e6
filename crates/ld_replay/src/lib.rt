//! What a task holds at a line of its trace, and where it acquired it: the trace is replayed up to that line.
#![tactic(auto)]

mod before;
mod flags;
mod hold;
mod lines;
mod replay;
mod task;
mod tasks;

pub use before::Before;
pub use flags::{Flag, Flags};
pub use hold::{Handler, HeldAt, Hold};
pub use lines::lines_at;
pub use replay::{before_lines, held_at};
pub use task::{Task, task_of};
