//! A list behind a lock that only grows: what a thread saw of it while it had the lock it may rely on whenever it has
//! the lock again.
#![tactic(auto)]

mod history;
mod rule;

pub use history::{Front, Keeper, Opened, Room};
pub use rule::{Entry, Noted};
