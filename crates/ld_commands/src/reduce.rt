//! The arguments of `reduce`.

use crate::words::{Given, count_of_workers, named_files, read_given};
use clap::{Arg, ArgAction, ArgMatches, Command, Error};
use std::alloc::{AllocError, Global};

/// The end of the help of `reduce`, below its arguments.
const AFTER_REDUCE: &str = "\
The traces in which a dependency, or a usage bit of a class, first occurs are written whole and in their order. For this
stream lockcheck reports the same violations with the same labels, but counts lines anew. Classes without dependencies
and usage bits may be missing, and so may lines before the first header. Reduced streams can be joined by cat and
reduced again: the result has the violations of all their traces together.

--from adds to each trace where it comes from, unless its first line says so already. These comments stay, however
often streams are joined and reduced again.

Exit status: 3 if a rejected trace is left out, 0 otherwise, 2 if there is no whole answer.

Example:
  lockgraph reduce run.trace other.trace > reduced.trace
  lockcheck < reduced.trace";

/// What `reduce` is asked.
#[derive(Drop)]
pub struct ReduceWords<'a> {
    /// Whether rejected traces are written too.
    pub refused: bool,
    /// Whether each trace says where it comes from.
    pub from: bool,
    /// The files with the streams, and how they are read.
    pub given: Given<'a>,
}

/// `reduce [--from] [--keep-refused] [--workers N] [FILE]..`.
pub fn reduce_command<'a>(alloc: Global) -> Result<Command<'a>, AllocError> {
    Command::new(alloc, "reduce")
        .about("Write the traces that first show a dependency or usage bit, as a stream")
        .after_help(AFTER_REDUCE)
        .arg(
            Arg::new(alloc, "from")
                .long("from")
                .help("Write # from FILE LINE behind each header: where the trace comes from")
                .action(ArgAction::SetTrue),
        )?
        .arg(
            Arg::new(alloc, "keep-refused")
                .long("keep-refused")
                .help("Write rejected traces too")
                .action(ArgAction::SetTrue),
        )?
        .arg(count_of_workers(alloc))?
        .arg(named_files(alloc))
}

/// What the arguments of `reduce` ask for.
///
/// # Errors
///
/// Those of `read_words`.
pub fn read_reduce<'a>(
    alloc: Global,
    command: &mut Command<'a>,
    matches: &ArgMatches<'a>,
) -> Result<ReduceWords<'a>, Error> {
    let refused = matches.get_flag("keep-refused");
    let from = matches.get_flag("from");
    let given = read_given(alloc, command, matches, &[])?;
    Ok(ReduceWords {
        refused,
        from,
        given,
    })
}
