//! The arguments of `dot`.

use crate::explain::class_named;
use crate::mapped::{Mapped, named_map, read_mapped};
use crate::words::{count_of_workers, named_files};
use clap::error::ErrorKind;
use clap::{Arg, ArgAction, ArgMatches, Command, Error, value_parser};
use std::alloc::{AllocError, Global};

/// How far a neighbourhood goes by default.
const DEFAULT_AROUND: u64 = 1;

/// The end of the help of `dot`, below its arguments.
const AFTER_DOT: &str = "\
A node is a class, with its usage characters. An edge is a dependency, with the trace and FILE:LINE of its first
occurrence. Recursions and the dependencies of inversions are red, other steps of forbidden paths orange. A class with
a conflict has two lines around it. The class L!read, for which recursive readers of L wait, is the node !read in a
box with the name L. With --map, or a map FILE.places beside FILE, the tooltip of an edge has the function, the source
line and the calls that led there.

By default only the classes and dependencies of violations are drawn. --class NAME draws the class, everything that is
at most N dependencies away from it in either direction, and the dependencies between these.

Exit status, whatever is drawn: 1 for violations, 3 for none but a rejected trace, 0 otherwise, 2 if there is no whole
answer.

Example:
  lockgraph dot run.trace | dot -Tsvg > run.svg";

/// The neighbourhood of a class.
#[derive(Clone, Copy, Debug)]
pub struct Around<'a> {
    /// The name of the class, `name` or `name/N`.
    pub name: &'a [u8],
    /// How many steps away from it at most.
    pub steps: u64,
}

/// What `dot` is asked.
#[derive(Drop)]
pub struct DotWords<'a> {
    /// The neighbourhood that is drawn alone; `None` for all of what is drawn.
    pub around: Option<Around<'a>>,
    /// Whether all classes and dependencies are drawn, and not only those of violations.
    pub all: bool,
    /// The files with the streams, and their maps.
    pub mapped: Mapped<'a>,
}

/// `dot [--all | --class NAME [--around N]] [--map FILE].. [--workers N] [FILE]..`.
pub fn dot_command<'a>(alloc: Global) -> Result<Command<'a>, AllocError> {
    let all = Arg::new(alloc, "all")
        .long("all")
        .help("Draw all classes and dependencies")
        .action(ArgAction::SetTrue)
        .conflicts_with("class")?;
    let class = Arg::new(alloc, "class")
        .long("class")
        .value_name("NAME")
        .help("Draw what is near this class, NAME or NAME/N")
        .action(ArgAction::Set);
    let around = Arg::new(alloc, "around")
        .long("around")
        .value_name("N")
        .help("Draw what is at most N dependencies away from the class; the default is 1")
        .action(ArgAction::Set)
        .value_parser(value_parser!(u64));
    Command::new(alloc, "dot")
        .about("Draw classes and dependencies as a graph for Graphviz")
        .after_help(AFTER_DOT)
        .arg(all)?
        .arg(class)?
        .arg(around)?
        .arg(named_map(alloc))?
        .arg(count_of_workers(alloc))?
        .arg(named_files(alloc))
}

/// What the arguments of `dot` ask for.
///
/// # Errors
///
/// Those of `read_words`, and if `--around` is given without `--class`.
pub fn read_dot<'a>(
    alloc: Global,
    command: &mut Command<'a>,
    matches: &ArgMatches<'a>,
) -> Result<DotWords<'a>, Error> {
    let steps = matches.get_one::<u64>("around");
    let around = match class_named(matches) {
        Some(name) => Some(Around {
            name,
            steps: steps.unwrap_or(DEFAULT_AROUND),
        }),
        None if steps.is_some() => {
            return Err(command.error(
                ErrorKind::MissingRequiredArgument,
                "--around needs --class",
            )?);
        }
        None => None,
    };
    let all = matches.get_flag("all");
    let mapped = read_mapped(alloc, command, matches)?;
    Ok(DotWords {
        around,
        all,
        mapped,
    })
}
