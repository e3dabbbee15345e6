//! The command line: its command, and what each command is given.
ghost use Rattle.std.specs.Prelude.{◌≤◌};
ghost use Rattle.ld_cli.specs.declared.words.TheConstants.{MOST_WORKERS};

use crate::check::{CheckWords, check_command, read_check};
use crate::cut::{CutWords, cut_command, read_cut};
use crate::dot::{DotWords, dot_command, read_dot};
use crate::explain::{ExplainWords, explain_command, read_explain};
use crate::formats::{
    FormatWords, github_command, html_command, junit_command, ktap_command, read_format,
    sarif_command,
};
use crate::json::{JsonWords, json_command, read_json};
use crate::list::{ListWords, list_command, read_list};
use crate::new::{NewWords, new_command, read_new};
use crate::reduce::{ReduceWords, read_reduce, reduce_command};
use crate::stats::{StatsWords, read_stats, stats_command};
use clap::error::ErrorKind;
use clap::{Arg, ArgAction, ArgMatches, Command, Error, value_parser};
use ld_cli::MOST_WORKERS;
use std::alloc::{AllocError, Global};
use std::convert::AsStr;

/// What `--version` says of the program.
pub(crate) const VERSION: &str = "0.1.0";

/// The name that stands for standard input.
pub const STANDARD_INPUT: &str = "-";

/// How many workers there are by default.
const DEFAULT_WORKERS: usize = 4;

/// The end of the help, below the commands.
const AFTER_HELP: &str = "\
Each command reads the named files as one stream of traces, one after another, or standard input if none is named.
- is standard input too, and may be named once. A file without any trace is an error.

Exit status:
  0  no violation is reported, and no trace is rejected
  1  violations
  2  no whole answer; standard error says why
  3  no violation is reported, but a trace is rejected

Example:
  lockgraph check run.trace other.trace
  lockgraph cut --lines 200 run.trace > cut.trace
  lockgraph dot run.trace | dot -Tsvg > run.svg
  lockgraph explain --class rx_lock run.trace
  lockgraph list --class rx_lock run.trace
  lockgraph stats run.trace other.trace
  lockgraph json run.trace > report.jsonl
  lockgraph html --map run.trace.places run.trace > run.html
  lockgraph sarif --map run.trace.places run.trace > run.sarif
  lockgraph github --map run.trace.places run.trace
  lockgraph junit run.trace > run.xml
  lockgraph ktap run.trace
  lockgraph new --known known.report run.trace
  lockgraph reduce run.trace other.trace > reduced.trace";

/// What a call asks for.
#[derive(Drop)]
pub enum Asked<'a> {
    /// `check`.
    Check(CheckWords<'a>),
    /// `cut`.
    Cut(CutWords<'a>),
    /// `dot`.
    Dot(DotWords<'a>),
    /// `explain`.
    Explain(ExplainWords<'a>),
    /// `sarif`, `github`, `junit`, `ktap` or `html`.
    Format(FormatWords<'a>),
    /// `json`.
    Json(JsonWords<'a>),
    /// `list`.
    List(ListWords<'a>),
    /// `new`.
    New(NewWords<'a>),
    /// `reduce`.
    Reduce(ReduceWords<'a>),
    /// `stats`.
    Stats(StatsWords<'a>),
}

impl<'a> Asked<'a> {
    /// What the command is given that it names.
    pub fn given(&self) -> &Given<'a> {
        match self {
            Asked::Check(words) => &words.given,
            Asked::Cut(words) => &words.given,
            Asked::Dot(words) => &words.mapped.given,
            Asked::Explain(words) => &words.mapped.given,
            Asked::Format(words) => &words.mapped.given,
            Asked::Json(words) => &words.mapped.given,
            Asked::List(words) => &words.given,
            Asked::New(words) => &words.given,
            Asked::Reduce(words) => &words.given,
            Asked::Stats(words) => &words.given,
        }
    }
}

/// What each command is given.
#[derive(Drop)]
pub struct Given<'a> {
    /// The names of the files with the streams.
    pub files: Vec<&'a str>,
    /// How many workers read traces at once.
    pub workers: usize,
    ghost few: { (1 ≤ workers) × (workers ≤ MOST_WORKERS) },
}

/// What these arguments ask for, the first of which is the program's name.
///
/// # Errors
///
/// The error's text is for the user: the help or the version if they ask for it, and otherwise what is wrong with them,
/// or that memory was refused.
pub fn read_words<'a, S: AsStr>(alloc: Global, words: &'a [S]) -> Result<Asked<'a>, Error> {
    let mut command = command_line(alloc)?;
    let matches = command.try_get_matches_from_mut(words)?;
    read_matches(alloc, &mut command, &matches)
}

/// What these matched arguments ask for.
fn read_matches<'a>(
    alloc: Global,
    command: &mut Command<'a>,
    matches: &ArgMatches<'a>,
) -> Result<Asked<'a>, Error> {
    match matches.subcommand() {
        Some((name, matches)) => read_command(alloc, command, name, matches),
        None => Err(command.error(ErrorKind::MissingSubcommand, "a command is missing")?),
    }
}

/// What the arguments of the command of this name ask for.
fn read_command<'a>(
    alloc: Global,
    command: &mut Command<'a>,
    name: &str,
    matches: &ArgMatches<'a>,
) -> Result<Asked<'a>, Error> {
    match name {
        "check" => Ok(Asked::Check(read_check(alloc, command, matches)?)),
        "cut" => Ok(Asked::Cut(read_cut(alloc, command, matches)?)),
        "dot" => Ok(Asked::Dot(read_dot(alloc, command, matches)?)),
        "explain" => Ok(Asked::Explain(read_explain(alloc, command, matches)?)),
        "json" => Ok(Asked::Json(read_json(alloc, command, matches)?)),
        "list" => Ok(Asked::List(read_list(alloc, command, matches)?)),
        "new" => Ok(Asked::New(read_new(alloc, command, matches)?)),
        "reduce" => Ok(Asked::Reduce(read_reduce(alloc, command, matches)?)),
        "stats" => Ok(Asked::Stats(read_stats(alloc, command, matches)?)),
        _ => Ok(Asked::Format(read_format(alloc, command, name, matches)?)),
    }
}

/// What each command is given. `others` are files that a command reads beside the streams.
///
/// # Errors
///
/// If standard input is named twice, or memory was refused.
pub(crate) fn read_given<'a>(
    alloc: Global,
    command: &mut Command<'a>,
    matches: &ArgMatches<'a>,
    others: &[&str],
) -> Result<Given<'a>, Error> {
    let files = files(alloc, matches)?;
    // Behind its end it would be read as if it were empty.
    if is_read_twice(others, &files) {
        return Err(command.error(ErrorKind::ArgumentConflict, "standard input is named twice")?);
    }
    let workers = workers(matches);
    Ok(Given { files, workers })
}

/// Whether standard input is read more than once.
fn is_read_twice(others: &[&str], files: &[&str]) -> bool {
    let named = others.iter().chain(files);
    named.filter(|name| **name == STANDARD_INPUT).count() > 1
}

/// The names of the files that are to be read.
fn files<'a>(alloc: Global, matches: &ArgMatches<'a>) -> Result<Vec<&'a str>, AllocError> {
    match matches.get_strs("files") {
        Some(names) if !names.is_empty() => names.to_vec(alloc),
        _ => Ok(vec![in alloc; STANDARD_INPUT]?),
    }
}

/// How many workers are to read traces at once.
fn workers(matches: &ArgMatches<'_>) -> usize
    ensures { (1 ≤ result) × (result ≤ MOST_WORKERS) }
{
    // The argument's own parser lets no other number through.
    match matches.get_one::<usize>("workers") {
        Some(count @ 1..=MOST_WORKERS) => count,
        _ => DEFAULT_WORKERS,
    }
}

/// The arguments that are taken.
fn command_line<'a>(alloc: Global) -> Result<Command<'a>, AllocError> {
    let command = Command::new(alloc, "lockgraph")
        .about("Explain, draw, list and compare recorded lock traces")
        .version(VERSION)
        .after_help(AFTER_HELP)
        .subcommand_required(true);
    let command = with(command, check_command(alloc))?;
    let command = with(command, cut_command(alloc))?;
    let command = with(command, dot_command(alloc))?;
    let command = with(command, explain_command(alloc))?;
    let command = with(command, github_command(alloc))?;
    let command = with(command, html_command(alloc))?;
    let command = with(command, json_command(alloc))?;
    let command = with(command, junit_command(alloc))?;
    let command = with(command, ktap_command(alloc))?;
    let command = with(command, list_command(alloc))?;
    let command = with(command, new_command(alloc))?;
    let command = with(command, reduce_command(alloc))?;
    let command = with(command, sarif_command(alloc))?;
    with(command, stats_command(alloc))
}

/// A command with this one below it, if there was memory for it.
fn with<'a>(
    command: Command<'a>,
    below: Result<Command<'a>, AllocError>,
) -> Result<Command<'a>, AllocError> {
    command.subcommand(below?)
}

/// `--most N`, of which all is the default.
pub(crate) fn most_told<'a>(alloc: Global) -> Arg<'a> {
    Arg::new(alloc, "most")
        .long("most")
        .value_name("N")
        .help("Tell at most N violations, and N rejected traces, 0 for all")
        .action(ArgAction::Set)
        .default_value("0")
        .value_parser(value_parser!(u64))
}

/// How many are told at most; 0 for all.
pub(crate) fn read_most(matches: &ArgMatches<'_>) -> u64 {
    matches.get_one::<u64>("most").unwrap_or(0)
}

/// `--workers N`.
pub(crate) fn count_of_workers<'a>(alloc: Global) -> Arg<'a> {
    Arg::new(alloc, "workers")
        .long("workers")
        .value_name("N")
        .help("How many threads read traces, from 1 to 16")
        .action(ArgAction::Set)
        .default_value("4")
        .value_parser(value_parser!(usize).range(1..=MOST_WORKERS as i64))
}

/// `[FILE]..`.
pub(crate) fn named_files<'a>(alloc: Global) -> Arg<'a> {
    Arg::new(alloc, "files")
        .value_name("FILE")
        .help("Files with traces, - for standard input")
        .action(ArgAction::Append)
        .num_args(0..)
}
