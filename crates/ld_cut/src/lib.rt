//! Cuts the traces of a stream into shorter ones that show the same together.
#![tactic(auto)]

mod alike;
mod pieces;
mod stream;
mod task;
mod tasks;

pub use stream::cut;
