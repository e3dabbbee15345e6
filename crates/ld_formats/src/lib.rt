//! What a report says, in the formats that other programs read. Each is written from [`Rows`], by one writer.
//!
//! Nothing but literals, numbers and escaped names gets into a text: see `text`.
#![tactic(auto)]

mod articles;
mod files;
mod format;
mod github;
mod html;
mod junit;
mod ktap;
mod picture;
mod sarif;
mod snippet;
mod story;
mod style;
mod tables;
mod text;
mod words;

pub use files::Stripped;
pub use format::{Format, format_text};
pub use ld_rows::Rows;
pub use ld_sources::Sources;
