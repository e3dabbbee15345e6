//! The traces that show a dependency, the shortest first.
#![tactic(auto)]

mod list;
mod named;
mod rows;
mod text;

pub use ld_class::ClassName;
pub use ld_places::{Place, ShownPlaces};
pub use ld_rules::Listed;
pub use list::occurrence_list;
pub use named::NamedDependency;
pub use rows::{Occurrence, occurrences};
