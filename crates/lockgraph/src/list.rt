//! `list`: the classes that the traces acquire, or the traces that show a dependency.

use crate::shown::{Topic, answer_shown};
use ld_check::Verdict;
use ld_commands::ListWords;
use ld_files::Fault;
use ld_texts::{Listing, Wanted};
use std::io;
use std::rt::Files;
use std::sync::Wait;
use std::thread::Threads;

/// Writes the classes that the traces of the named files acquire, or which traces show a dependency. May wait.
///
/// # Errors
///
/// Those of `answer_shown`.
pub fn answer_list<'a, R: Files + io::Input + Print + AllocGlobal + Threads + Wait + Sync>(
    rt: &R,
    words: &ListWords<'a>,
) -> Result<Verdict, Fault<'a>> {
    let topic = match words.dependency {
        Some(between) => Topic::Dependency(between),
        None => Topic::Whole(Wanted::List(listing(words))),
    };
    answer_shown(rt, &words.given, topic)
}

/// Which classes are to be listed.
fn listing<'a>(words: &ListWords<'a>) -> Listing<'a> {
    match words.class {
        Some(name) => Listing::Class(name),
        None if words.dependencies => Listing::Dependencies,
        None => Listing::Classes,
    }
}
