//! The text of `explain` as a terminal shows it in colours.
#![tactic(auto)]

mod colours;

pub use colours::coloured;
