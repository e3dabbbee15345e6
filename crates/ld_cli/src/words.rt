//! The words of the command line.
ghost use Rattle.std.specs.Prelude.{◌≡◌, ◌≤◌, IfErr, IfOk, false, length};
ghost use Rattle.clap.specs.Words.{app_of, kind_of, rule_of};
ghost use Rattle.clap.specs.declared.error.kind.ErrorKind.{ErrorKind};
ghost use Rattle.ld_cli.specs.Inner.Words.{told_by_words, workers_argument};

use clap::{Arg, ArgAction, Command, Error, value_parser};
use std::alloc::{AllocError, Global};
use std::convert::AsStr;

/// How many workers the words may ask for at most.
pub const MOST_WORKERS: usize = 16;

/// How many workers there are where no word says it.
const DEFAULT_WORKERS: usize = 4;

/// What the help says behind the words that may be given.
const AFTER_HELP: &str = "\
Reads one stream of traces from standard input, to its end, and writes the report to standard output.

Exit status:
  0  no violation, and no trace is refused
  1  violations
  2  no whole report; standard error says why
  3  no violation, and a trace is refused

Example:
  lockcheck --workers 8 < run.trace";

/// How many workers there are by these words of the command line, the first of which is the program's
/// name.
///
/// # Errors
///
/// The error's text is for the user: the help where the words ask for it, and else what is wrong with
/// them, or that memory was refused.
pub fn workers<'a, S: AsStr>(alloc: Global, words: &'a [S]) -> Result<usize, Error>
    ensures within { IfOk result (λ n. (1 ≤ n) × (n ≤ MOST_WORKERS)) }
    ensures alone { length words.entry.now ≡ 1 → IfOk result (λ n. n ≡ DEFAULT_WORKERS) }
    ensures alone_refused { length words.entry.now ≡ 1 →
        IfErr result (λ error. kind_of error ≡ ErrorKind.OutOfMemory) }
{
    let matches = command_line(alloc)?.try_get_matches_from(words)?;
    // The argument's own parser lets no other number through.
    match matches.get_one::<usize>("workers") {
        Some(count @ 1..=MOST_WORKERS) => Ok(count),
        _ => Ok(DEFAULT_WORKERS),
    }
}

/// What the words may say.
fn command_line<'a>(alloc: Global) -> Result<Command<'a>, AllocError>
    ensures { IfOk result (λ command. app_of command ≡ told_by_words) }
{
    Command::new(alloc, "lockcheck")
        .about("Checks the order of locks in recorded traces")
        .after_help(AFTER_HELP)
        .arg(count_of_workers(alloc))
}

/// `--workers N`.
fn count_of_workers<'a>(alloc: Global) -> Arg<'a>
    ensures rule { rule_of result ≡ workers_argument }
    ensures local { result.global ≡ false }
{
    Arg::new(alloc, "workers")
        .long("workers")
        .value_name("N")
        .help("How many workers read traces at once, from 1 to 16")
        .action(ArgAction::Set)
        .default_value("4")
        .value_parser(value_parser!(usize).range(1..=MOST_WORKERS as i64))
}
