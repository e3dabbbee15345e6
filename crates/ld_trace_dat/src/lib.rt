//! The parts of a file that `trace-cmd record` wrote (trace.dat).
#![tactic(auto)]

mod fault;
mod formats;
mod options;
mod part;
mod processors;
mod recording;
mod section;
mod start;
mod version_6;
mod version_7;

pub use fault::{DatFault, ReadError, Wrong};
pub use formats::System;
pub use processors::Processor;
pub use recording::{Recording, recording_of};
