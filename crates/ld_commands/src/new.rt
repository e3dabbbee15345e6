//! The arguments of `new`.

use crate::words::{Given, count_of_workers, named_files, read_given};
use clap::error::ErrorKind;
use clap::{Arg, ArgAction, ArgMatches, Command, Error};
use std::alloc::{AllocError, Global};

/// The end of the help of `new`, below its arguments.
const AFTER_NEW: &str = "\
A violation is known if KNOWN, an earlier report, has one of the same kind, state and classes. First occurrences and
paths don't matter. The last line is `nothing new`, or `new` and the number of violations that are left. L of T:L
counts lines over all files as one stream. For several files, comments at the end name the file of each line number:
`# line L is FILE:LINE`.

A line of KNOWN makes a violation known if it has one of these forms, in which .. may be anything:
  recursion A at ..
  inversion A -> B at ..
  conflict STATE A MARKS in ..
  forbidden STATE A MARKS in T:L -> B MARKS on ..
In A and B each * stands for any bytes, also none. Other lines are those of reports, blank lines, and comments, which
begin with #. If known lines match nothing, a comment before the last line says how many. --fixed prints these lines
instead, and then `fixed` and their number, or `nothing fixed`.

Exit status: 1 if a violation is new, 3 if none is but a trace is rejected, 0 otherwise, 2 if there is no answer. With
--fixed it is never 1.

Example:
  lockcheck < run.trace > known.report
  lockgraph new --known known.report run.trace other.trace
  lockgraph new --fixed --known known.report run.trace other.trace";

/// What `new` is asked.
#[derive(Drop)]
pub struct NewWords<'a> {
    /// The name of the known text.
    pub known: &'a str,
    /// Whether known lines that match nothing are written, and not what is new.
    pub fixed: bool,
    /// The files with the streams, and how they are read.
    pub given: Given<'a>,
}

/// `new --known KNOWN [--fixed] [--workers N] [FILE]..`.
pub fn new_command<'a>(alloc: Global) -> Result<Command<'a>, AllocError> {
    Command::new(alloc, "new")
        .about("Print the report without known violations")
        .after_help(AFTER_NEW)
        .arg(
            Arg::new(alloc, "known")
                .long("known")
                .value_name("KNOWN")
                .help("The known report")
                .action(ArgAction::Set)
                .required(true),
        )?
        .arg(
            Arg::new(alloc, "fixed")
                .long("fixed")
                .help("Print the known lines that match nothing, instead of what is new")
                .action(ArgAction::SetTrue),
        )?
        .arg(count_of_workers(alloc))?
        .arg(named_files(alloc))
}

/// What the arguments of `new` ask for.
///
/// # Errors
///
/// Those of `read_words`.
pub fn read_new<'a>(
    alloc: Global,
    command: &mut Command<'a>,
    matches: &ArgMatches<'a>,
) -> Result<NewWords<'a>, Error> {
    let Some(known) = matches.get_str("known") else {
        return Err(command.error(ErrorKind::MissingRequiredArgument, "--known is missing")?);
    };
    let given = read_given(alloc, command, matches, &[known])?;
    let fixed = matches.get_flag("fixed");
    Ok(NewWords {
        known,
        fixed,
        given,
    })
}
