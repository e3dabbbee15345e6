//! What the lines of a report say, and which of them are new.
#![tactic(auto)]

mod gone;
mod known;
mod news;
mod pattern;
mod said;
mod violations;
mod witnesses;

pub use gone::{GoneLines, gone_lines};
pub use known::{is_comment, unknown_line};
pub use news::{NewReport, SelectFault, new_report};
pub use witnesses::lines_named;
