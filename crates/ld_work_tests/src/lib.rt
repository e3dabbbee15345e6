//! Tests of books, desks, tickets and workers by their public calls, in a crate above them, so that these aren't
//! proved once more for them.
#![tactic(auto)]

#[cfg(test)]
mod batch_submits;
#[cfg(test)]
mod book;
#[cfg(test)]
mod common;
#[cfg(test)]
mod desks;
#[cfg(test)]
mod submits;
#[cfg(test)]
mod tickets;
#[cfg(test)]
mod work;
