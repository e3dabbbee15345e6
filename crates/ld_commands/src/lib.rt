//! The command line of lockgraph: what a call asks for.
#![tactic(auto)]

mod check;
mod cut;
mod dot;
mod explain;
mod formats;
mod json;
mod list;
mod mapped;
mod new;
mod reduce;
mod stats;
mod words;

pub use check::CheckWords;
pub use cut::CutWords;
pub use dot::{Around, DotWords};
pub use explain::ExplainWords;
pub use formats::FormatWords;
pub use json::JsonWords;
pub use ld_cli::MOST_WORKERS;
pub use list::{Between, ListWords};
pub use mapped::Mapped;
pub use new::NewWords;
pub use reduce::ReduceWords;
pub use stats::StatsWords;
pub use words::{Asked, Given, STANDARD_INPUT, read_words};
