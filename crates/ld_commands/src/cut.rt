//! The arguments of `cut`.

use crate::words::{Given, named_files, read_given};
use clap::{Arg, ArgAction, ArgMatches, Command, Error, value_parser};
use std::alloc::{AllocError, Global};

/// How many lines a piece has by default.
const DEFAULT_LINES: usize = 200;

/// The end of the help of `cut`, below its arguments.
const AFTER_CUT: &str = "\
Each piece has N lines of the trace, except the last one, which may have fewer. A later piece begins with lines of the
trace that carry over each task's open handlers, flags and held locks. The pieces of a trace LABEL are LABEL, LABEL.2,
LABEL.3 and so on. The stream has the same classes, dependencies and usage bits as before. A rejected trace is written
whole. Of long traces, reduce leaves less if they are cut first.

Exit status: 0, or 2 if there is no whole answer.

Example:
  lockgraph cut --lines 200 run.trace | lockgraph reduce > reduced.trace";

/// What `cut` is asked.
#[derive(Drop)]
pub struct CutWords<'a> {
    /// How many lines of a trace a piece has.
    pub lines: usize,
    /// The files with the streams.
    pub given: Given<'a>,
}

/// `cut [--lines N] [FILE]..`.
pub fn cut_command<'a>(alloc: Global) -> Result<Command<'a>, AllocError> {
    let lines = Arg::new(alloc, "lines")
        .long("lines")
        .value_name("N")
        .help("How many lines of a trace each piece has, at least 1")
        .action(ArgAction::Set)
        .default_value("200")
        .value_parser(value_parser!(usize).range(1..));
    Command::new(alloc, "cut")
        .about("Write each trace as pieces that show the same, as a stream")
        .after_help(AFTER_CUT)
        .arg(lines)?
        .arg(named_files(alloc))
}

/// What the arguments of `cut` ask for.
///
/// # Errors
///
/// Those of `read_words`.
pub fn read_cut<'a>(
    alloc: Global,
    command: &mut Command<'a>,
    matches: &ArgMatches<'a>,
) -> Result<CutWords<'a>, Error> {
    // The argument's own parser lets no other number through.
    let lines = matches.get_one::<usize>("lines").unwrap_or(DEFAULT_LINES);
    let given = read_given(alloc, command, matches, &[])?;
    Ok(CutWords { lines, given })
}
