//! What stands behind each violation of a report: its dependencies at their first witnesses, with the locks
//! that were held there, and both ends of a conflict or of a forbidden walk; and graphs of classes and
//! dependencies, for Graphviz.
#![tactic(auto)]

mod around;
mod common;
mod drawing;
mod explaining;
mod fault;
mod groups;
mod known;
mod readers;
mod refusals;
mod rows;
mod sightings;
mod telling;
mod violations;
mod writing;

pub use drawing::{Drawn, dot};
pub use explaining::explain;
pub use fault::{Fault, faults};
pub use ld_rows::Kind;
pub use rows::{FilePaths, Part, rows_of, rows_of_part};
pub use violations::{Choice, Dependency, Ends, Step, Violation, chosen};
