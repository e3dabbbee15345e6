//! Tests of what stands below a book by its public calls: streams, events, classes, facts, batches, graphs; and of
//! words. They are in a crate above all of these, so that these aren't proved once more for them.
#![tactic(auto)]

#[cfg(test)]
mod batches;
#[cfg(test)]
mod classes;
#[cfg(test)]
mod events;
#[cfg(test)]
mod facts;
#[cfg(test)]
mod graphs;
#[cfg(test)]
mod marks;
#[cfg(test)]
mod reaches;
#[cfg(test)]
mod streams;
#[cfg(test)]
mod trees;
#[cfg(test)]
mod words;
