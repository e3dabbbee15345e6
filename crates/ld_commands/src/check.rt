//! The arguments of `check`.

use crate::words::{Given, count_of_workers, named_files, read_given};
use clap::{ArgMatches, Command, Error};
use std::alloc::{AllocError, Global};

/// The end of the help of `check`, below its arguments.
const AFTER_CHECK: &str = "\
The report is the one that lockcheck writes of the files as one stream: L of T:L counts lines over all of them. An error
names its file.

Exit status: that of lockcheck.

Example:
  lockgraph check run.trace other.trace";

/// What `check` is asked.
#[derive(Drop)]
pub struct CheckWords<'a> {
    /// The files with the streams, and how they are read.
    pub given: Given<'a>,
}

/// `check [--workers N] [FILE]..`.
pub fn check_command<'a>(alloc: Global) -> Result<Command<'a>, AllocError> {
    Command::new(alloc, "check")
        .about("Print lockcheck's report of files")
        .after_help(AFTER_CHECK)
        .arg(count_of_workers(alloc))?
        .arg(named_files(alloc))
}

/// What the arguments of `check` ask for.
///
/// # Errors
///
/// Those of `read_words`.
pub fn read_check<'a>(
    alloc: Global,
    command: &mut Command<'a>,
    matches: &ArgMatches<'a>,
) -> Result<CheckWords<'a>, Error> {
    let given = read_given(alloc, command, matches, &[])?;
    Ok(CheckWords { given })
}
