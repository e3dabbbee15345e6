//! Tests of checks, runs, reports and devices by their public calls, in a crate above them, so that these aren't
//! proved once more for them.
#![tactic(auto)]

#[cfg(test)]
mod check;
#[cfg(test)]
mod devices;
#[cfg(test)]
mod fakes;
#[cfg(test)]
mod pieces;
#[cfg(test)]
mod report;
#[cfg(test)]
mod run;
#[cfg(test)]
mod texts;
