//! The arguments of the commands that write for other programs: `sarif`, `github`, `junit`, `ktap` and `html`.

use crate::mapped::{Mapped, named_map, read_mapped_beside};
use crate::words::{VERSION, count_of_workers, most_told, named_files, read_most};
use clap::error::ErrorKind;
use clap::{Arg, ArgAction, ArgMatches, Command, Error};
use ld_formats::{Format, Stripped};
use std::alloc::{AllocError, Global};

/// The end of the help of `sarif`, below its arguments.
const AFTER_SARIF: &str = "\
The form is SARIF 2.1.0: a result for each violation, with a flow for each step of its cycle or path. With a map, as for
explain, the locations are source lines, otherwise lines of traces.

Exit status: that of lockcheck, with --known that of new.

Example:
  lockgraph sarif --map run.trace.places --strip /home/you/project run.trace > run.sarif";

/// The end of the help of `github`, below its arguments.
const AFTER_GITHUB: &str = "\
The answer is workflow commands of GitHub: an error for each violation, a warning for each rejected trace, and a notice
with their numbers. GitHub shows what a step prints in this form beside the lines of the change. With a map, as for
explain, these are source lines, otherwise lines of traces.

Exit status: that of lockcheck, with --known that of new.

Example:
  lockgraph github --map run.trace.places --strip /home/you/project run.trace";

/// The end of the help of `junit`, below its arguments.
const AFTER_JUNIT: &str = "\
The answer is a test suite as JUnit's XML: a case for the traces, and a failed case for each group of violations that
share dependencies. With a map, as for explain, it has source lines too.

Exit status: that of lockcheck, with --known that of new.

Example:
  lockgraph junit --map run.trace.places --strip /home/you/project run.trace > run.xml";

/// The end of the help of `ktap`, below its arguments.
const AFTER_KTAP: &str = "\
The form is KTAP version 1, which readers of TAP take too: a test for the traces, and a failed test for each group of
violations that share dependencies, with their explanation as comments.

Exit status: that of lockcheck, with --known that of new.

Example:
  lockgraph ktap --map run.trace.places run.trace";

/// The end of the help of `html`, below its arguments.
const AFTER_HTML: &str = "\
The page needs no network. It has each violation with a picture and its explanation, all classes, and all dependencies.

With a map, as for explain, each line has the calls that led there. With --source a call also has its source line, two
before it and two behind it. A recorded path stands for the file below DIR that has the longest end of it. The option
may be given several times.

Exit status: that of lockcheck, with --known that of new.

Example:
  lockgraph html --map run.trace.places --source /home/you/project run.trace > run.html";

/// What one of these commands is asked.
#[derive(Drop)]
pub struct FormatWords<'a> {
    /// What is written.
    pub format: Format<'a>,
    /// The folders that sources are looked for in.
    pub folders: Vec<&'a str>,
    /// The name of the known text, of which no violation is told; `None` for all violations.
    pub known: Option<&'a str>,
    /// How many violations are told at most; 0 for all.
    pub most: u64,
    /// The files with the streams, and their maps.
    pub mapped: Mapped<'a>,
}

/// `sarif [--strip PREFIX] [--known KNOWN] [--most N] [--map MAP].. [--workers N] [FILE]..`.
pub fn sarif_command<'a>(alloc: Global) -> Result<Command<'a>, AllocError> {
    let command = Command::new(alloc, "sarif")
        .about("Write the violations as SARIF, for code scanning")
        .after_help(AFTER_SARIF)
        .arg(prefix(alloc))?;
    with_files(alloc, command)
}

/// `github [--strip PREFIX] [--known KNOWN] [--most N] [--map MAP].. [--workers N] [FILE]..`.
pub fn github_command<'a>(alloc: Global) -> Result<Command<'a>, AllocError> {
    let command = Command::new(alloc, "github")
        .about("Print the violations as annotations, for GitHub workflows")
        .after_help(AFTER_GITHUB)
        .arg(prefix(alloc))?;
    with_files(alloc, command)
}

/// `junit [--strip PREFIX] [--known KNOWN] [--most N] [--map MAP].. [--workers N] [FILE]..`.
pub fn junit_command<'a>(alloc: Global) -> Result<Command<'a>, AllocError> {
    let command = Command::new(alloc, "junit")
        .about("Write the violations as failed tests, in JUnit's XML")
        .after_help(AFTER_JUNIT)
        .arg(prefix(alloc))?;
    with_files(alloc, command)
}

/// `ktap [--known KNOWN] [--most N] [--map MAP].. [--workers N] [FILE]..`.
pub fn ktap_command<'a>(alloc: Global) -> Result<Command<'a>, AllocError> {
    let command = Command::new(alloc, "ktap")
        .about("Print the violations as failed tests, in KTAP")
        .after_help(AFTER_KTAP);
    with_files(alloc, command)
}

/// `html [--source DIR].. [--known KNOWN] [--most N] [--map MAP].. [--workers N] [FILE]..`.
pub fn html_command<'a>(alloc: Global) -> Result<Command<'a>, AllocError> {
    let command = Command::new(alloc, "html")
        .about("Write violations, classes and dependencies as a page of HTML")
        .after_help(AFTER_HTML)
        .arg(folder(alloc))?;
    with_files(alloc, command)
}

/// `--strip PREFIX`.
fn prefix<'a>(alloc: Global) -> Arg<'a> {
    Arg::new(alloc, "strip")
        .long("strip")
        .value_name("PREFIX")
        .help("Make paths below this folder relative, such as a checkout")
        .action(ArgAction::Set)
}

/// `--source DIR`, which may be given several times.
fn folder<'a>(alloc: Global) -> Arg<'a> {
    Arg::new(alloc, "source")
        .long("source")
        .value_name("DIR")
        .help("Show lines of the sources in this folder")
        .action(ArgAction::Append)
}

/// `--known KNOWN`.
fn known<'a>(alloc: Global) -> Arg<'a> {
    Arg::new(alloc, "known")
        .long("known")
        .value_name("KNOWN")
        .help("Leave out violations that this report has, as new does")
        .action(ArgAction::Set)
}

/// The same command, with the arguments that each of these has.
fn with_files<'a>(alloc: Global, command: Command<'a>) -> Result<Command<'a>, AllocError> {
    command
        .arg(known(alloc))?
        .arg(most_told(alloc))?
        .arg(named_map(alloc))?
        .arg(count_of_workers(alloc))?
        .arg(named_files(alloc))
}

/// What the command of this name writes, if it is one of these.
fn format_named<'a>(name: &str, matches: &ArgMatches<'a>) -> Option<Format<'a>> {
    match name {
        "sarif" => Some(Format::Sarif {
            version: VERSION,
            stripped: stripped(matches),
        }),
        "github" => Some(Format::Github(stripped(matches))),
        "junit" => Some(Format::Junit(stripped(matches))),
        "ktap" => Some(Format::Ktap),
        "html" => Some(Format::Html { version: VERSION }),
        _ => None,
    }
}

/// What `--strip` names; nothing without it.
fn stripped<'a>(matches: &ArgMatches<'a>) -> Stripped<'a> {
    let prefix = match matches.get_str("strip") {
        Some(prefix) => prefix.as_bytes(),
        None => b"",
    };
    Stripped { prefix }
}

/// What `--source` names, for the command of this name.
fn folders<'a>(
    alloc: Global,
    name: &str,
    matches: &ArgMatches<'a>,
) -> Result<Vec<&'a str>, AllocError> {
    if name != "html" {
        return Ok(Vec::new(alloc));
    }
    match matches.get_strs("source") {
        Some(names) => names.to_vec(alloc),
        None => Ok(Vec::new(alloc)),
    }
}

/// What the arguments of the command of this name ask for.
///
/// # Errors
///
/// Those of `read_mapped_beside`, and if it is none of these commands.
pub fn read_format<'a>(
    alloc: Global,
    command: &mut Command<'a>,
    name: &str,
    matches: &ArgMatches<'a>,
) -> Result<FormatWords<'a>, Error> {
    let Some(format) = format_named(name, matches) else {
        return Err(command.error(ErrorKind::MissingSubcommand, "a command is missing")?);
    };
    let folders = folders(alloc, name, matches)?;
    let known = matches.get_str("known");
    let most = read_most(matches);
    let mapped = read_mapped_beside(alloc, command, matches, known)?;
    Ok(FormatWords {
        format,
        folders,
        known,
        most,
        mapped,
    })
}
