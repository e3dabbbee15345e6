//! Source files, as far as a report shows them: found below folders, read once each, and cut to the lines around calls.
#![tactic(auto)]

mod calls;
mod folders;
mod paths;
mod reading;
mod sources;

pub use folders::Folder;
pub use reading::{LONGEST_SOURCE, read_sources};
pub use sources::{AROUND, LONGEST_LINE, SourceFile, SourceLine, Sources, around};
