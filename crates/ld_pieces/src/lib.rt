//! A stream that comes in pieces: reads them, and cuts what has come into its traces.
#![tactic(auto)]

mod cut;
mod pieces;
mod reading;

pub use pieces::Pieces;
pub use reading::{Read, read_piece};
