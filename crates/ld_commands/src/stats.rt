//! The arguments of `stats`.

use crate::words::{Given, count_of_workers, named_files, read_given};
use clap::{ArgMatches, Command, Error};
use std::alloc::{AllocError, Global};

/// The end of the help of `stats`, below its arguments.
const AFTER_STATS: &str = "\
Each line is NAME N: how much was recorded and read, what it shows, and how many violations of each kind there are.
docs/OUTPUT.md says what each number counts.

Exit status: 3 if a trace is rejected, whose events aren't counted, 0 otherwise, 2 if there is no whole answer.

Example:
  lockgraph stats run.trace other.trace";

/// What `stats` is asked.
#[derive(Drop)]
pub struct StatsWords<'a> {
    /// The files with the streams, and how they are read.
    pub given: Given<'a>,
}

/// `stats [--workers N] [FILE]..`.
pub fn stats_command<'a>(alloc: Global) -> Result<Command<'a>, AllocError> {
    Command::new(alloc, "stats")
        .about("Count traces, events, classes, dependencies and violations")
        .after_help(AFTER_STATS)
        .arg(count_of_workers(alloc))?
        .arg(named_files(alloc))
}

/// What the arguments of `stats` ask for.
///
/// # Errors
///
/// Those of `read_words`.
pub fn read_stats<'a>(
    alloc: Global,
    command: &mut Command<'a>,
    matches: &ArgMatches<'a>,
) -> Result<StatsWords<'a>, Error> {
    let given = read_given(alloc, command, matches, &[])?;
    Ok(StatsWords { given })
}
