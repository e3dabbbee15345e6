//! The files of a call: read as one stream, with what recorders say of them, and what is wrong where there is no answer.
#![tactic(auto)]

mod comments;
mod fault;
mod homes;
mod lines;
mod looks;
mod maps;
mod nearest;
mod quote;
mod streams;
mod told;

pub use comments::{remarks, write_comments};
pub use fault::Fault;
pub use homes::homes_wanted;
pub use looks::{Kind, Looks};
pub use maps::{MapText, WrongMap, maps_in, maps_of, read_maps};
pub use nearest::{NoClass, find_class};
pub use quote::Quote;
pub use streams::{Streams, is_plain_header, read_file, read_known, read_streams, told_with};
pub use told::{Told, write_told};
