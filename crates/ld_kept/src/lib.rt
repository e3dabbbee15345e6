//! Which acquisitions of a kernel's recording a stream has, and how each stands there.
#![tactic(auto)]

mod kept;
mod running;

pub use kept::{
    LeftOut, MOST_SUBCLASS, Taking, is_apart, left_out, locks, needs_readers, sub_said, taking_of,
};
pub use running::{Running, running_of};
