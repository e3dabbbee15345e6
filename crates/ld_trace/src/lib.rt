//! The streams of traces: their lines, the sections of a stream, and the event that a line names.
#![tactic(auto)]

mod cut;
mod event;
mod fast;
mod front;
mod line;
mod others;
mod source;

pub use cut::split;
pub use event::{Event, LineFault, Lock, State, read_event};
pub use fast::{behind_empty, next_event, next_state_event};
pub use line::{LONGEST_WORD, next_line, text};
pub use source::{LONGEST_STREAM, MOST_TRACES, Source, StreamFault};
