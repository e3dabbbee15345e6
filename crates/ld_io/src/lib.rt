//! The devices that a run reads from and writes to, and whole transfers over them.
#![tactic(auto)]

mod devices;
mod transfer;

pub use devices::{DeviceFault, Input, Output, Std};
pub use transfer::{CHUNK, MOST_READ, ReadFault, chunk, read_all, read_up_to, send};
