//! What is counted of some traces and of what they show: how often classes are acquired, events by verb, chains and
//! depth, components, and how far walks of dependencies lead.
#![tactic(auto)]

mod acquired;
mod chains;
mod components;
mod counted;
mod hints;
mod known;
mod lines;
mod merged;
mod numbered;
mod order;
mod replay;
mod told;
mod walks;

pub use acquired::acquisitions;
pub use components::{Components, Followers};
pub use counted::{Counted, Verbs};
pub use walks::Walks;
