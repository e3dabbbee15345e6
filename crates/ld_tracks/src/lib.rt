//! What the stream has one task hold and run in, and the lines that say so.
#![tactic(auto)]

mod line;
mod place;
mod track;

pub use line::{Flags, Held, How, Line, Lock};
pub use place::{Handlers, Place};
pub use track::Track;
