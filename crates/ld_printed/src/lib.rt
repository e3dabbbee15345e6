//! Events of a kernel's ring as lines of text, as tracefs' file `trace` has them.
#![tactic(auto)]

mod event;
mod line;
mod place;
mod words;

pub use line::{write_event, write_lost};
pub use place::Clock;
