//! The maps that recorders write beside a stream, and what they say of its lines and of its classes.
#![tactic(auto)]

mod calls;
mod classes;
mod map;
mod maps;
mod places;
mod plain;
mod words;

pub use calls::{Call, calls_of};
pub use classes::Origin;
pub use map::{At, Map, MapFault, Taken};
pub use maps::Maps;
pub use plain::write_plain;
