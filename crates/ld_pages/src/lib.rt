//! Pages of a kernel's ring buffer, of one processor, to the events that they hold.
#![tactic(auto)]

mod cursor;
mod entries;
mod entry;
mod events;
mod laws;
mod layout;
mod page;
mod words;

pub use cursor::{Event, Fault, Item, Lost, Wrong};
pub use events::Events;
pub use laws::one_reading;
pub use layout::{LARGEST_PAGE, Layout};
