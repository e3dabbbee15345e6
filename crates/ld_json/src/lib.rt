//! Rows of a report as JSON, one object a line.
#![tactic(auto)]

mod common;
mod ends;
mod places;
mod quoted;
mod seen;
mod tables;
mod text;
mod violations;

pub use text::json_text;
