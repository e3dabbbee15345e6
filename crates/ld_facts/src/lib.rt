//! The facts of a trace, and of a batch of a few traces: the scan of events, and what it tells.
#![tactic(auto)]

mod acquire_kind;
mod batch;
mod batch_reading;
mod batch_rows;
mod bounds;
mod known;
mod lookups;
mod reading;
mod scan;
mod series;

pub use batch::Batch;
pub use bounds::MOST_KNOWN;
pub use known::Facts;
pub use ld_batch::{Edges, Hints, WitnessedEdge, WitnessedUse};
pub use ld_rules::{Listed, MOST_CLASSES, MOST_HELD, MOST_TASKS, Outcome, TraceFault, Witness};
pub use ld_tables::{EdgeFact, UsageFact};
pub use reading::facts;
pub use series::Series;
