//! What some traces show together: their classes, numbered, the dependencies and the usage of these, each with
//! the place where it was first seen, and every violation among them.
#![tactic(auto)]

mod alarms;
mod by_name;
mod delta;
mod dependencies;
mod findings;
mod reaches;
mod union;
mod usage;
mod walk;

pub use alarms::{Alarms, Forbidden, Found};
pub use delta::{Delta, NewBit};
pub use dependencies::Witnessed;
pub use findings::{
    ConflictRow, CycleRow, Findings, ForbiddenRow, ForbiddenRows, Rows, findings_of,
};
pub use reaches::PerState;
pub use union::Union;
pub use usage::UsageRow;
pub use walk::{Walk, WalkNames};
