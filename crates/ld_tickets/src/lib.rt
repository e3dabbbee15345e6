//! Numbers that threads draw without a lock: those below some n, each once.
#![tactic(auto)]

mod rule;
mod tickets;

pub use rule::{MOST_NUMBERS, MOST_SEATS};
pub use tickets::{DrawSeat, Drawn, Tickets};
