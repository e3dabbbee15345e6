//! The arguments of `list`.

use crate::words::{Given, count_of_workers, named_files, read_given};
use clap::{Arg, ArgAction, ArgMatches, Command, Error};
use std::alloc::{AllocError, Global};

/// The end of the help of `list`, below its arguments.
const AFTER_LIST: &str = "\
There is a line for each class that the traces acquire, in the order of a report:
  CLASS {USAGE} acquired N reached-from N reaches N
The numbers count its acquisitions, the classes from which a path of dependencies leads to it, and the classes to which
one leads from it. A class on a cycle counts itself. --dependencies adds below each class the dependencies that begin
with it, each with its first occurrence:
  -> CLASS at LABEL FILE:LINE
The class L!read, for which recursive readers of L wait, has the row !read under that of L.

--class lists one class: the first occurrence of each usage bit, the classes that it was acquired under (under), and
those acquired under it (over). If no trace acquires the class, the status is 2, and standard error names the nearest
one.

--dependency A B prints how many traces show A -> B, that B was acquired while A was held, and a line for each:
  lines N at LABEL FILE:LINE
The trace with the fewest lines comes first: it is the shortest way to that order. N counts the lines behind its
header, and LINE is its first line at which the dependency stands.

Exit status: 3 if a trace is rejected, of which nothing is listed, 0 otherwise, 2 if there is no whole answer.

Example:
  lockgraph list --dependencies run.trace
  lockgraph list --class rx_lock run.trace other.trace
  lockgraph list --dependency rx_lock tx_lock run.trace";

/// A dependency, by the names of its classes.
#[derive(Clone, Copy, Debug, PartialEq, Eq)]
pub struct Between<'a> {
    /// The class that is held.
    pub from: &'a str,
    /// The class that is acquired under it.
    pub to: &'a str,
}

/// What `list` is asked.
#[derive(Drop)]
pub struct ListWords<'a> {
    /// The dependency whose traces are listed, and nothing else.
    pub dependency: Option<Between<'a>>,
    /// The class that is listed alone; `None` for all.
    pub class: Option<&'a str>,
    /// Whether the dependencies of each class are listed too. Those of one class are in any case.
    pub dependencies: bool,
    /// The files with the streams, and how they are read.
    pub given: Given<'a>,
}

/// `list [--dependencies] [--class NAME | --dependency A B] [--workers N] [FILE]..`.
pub fn list_command<'a>(alloc: Global) -> Result<Command<'a>, AllocError> {
    let dependency = Arg::new(alloc, "dependency")
        .long("dependency")
        .value_name("CLASS")
        .help(
            "List the traces in which the second class is acquired under the first, the shortest first",
        )
        .num_args(2)
        // Each byte but a blank may begin a name.
        .allow_hyphen_values(true)
        .action(ArgAction::Set)
        .conflicts_with("class")?
        .conflicts_with("dependencies")?;
    Command::new(alloc, "list")
        .about("List classes, how often each is acquired, and what it leads to")
        .after_help(AFTER_LIST)
        .arg(
            Arg::new(alloc, "dependencies")
                .long("dependencies")
                .help("Add below each class the dependencies that begin with it")
                .action(ArgAction::SetTrue),
        )?
        .arg(
            Arg::new(alloc, "class")
                .long("class")
                .value_name("NAME")
                .help("List this class alone, NAME or NAME/N, and what was held around it")
                .action(ArgAction::Set),
        )?
        .arg(dependency)?
        .arg(count_of_workers(alloc))?
        .arg(named_files(alloc))
}

/// What the arguments of `list` ask for.
///
/// # Errors
///
/// Those of `read_words`.
pub fn read_list<'a>(
    alloc: Global,
    command: &mut Command<'a>,
    matches: &ArgMatches<'a>,
) -> Result<ListWords<'a>, Error> {
    let dependency = dependency_named(matches);
    let class = matches.get_str("class");
    let dependencies = matches.get_flag("dependencies");
    let given = read_given(alloc, command, matches, &[])?;
    Ok(ListWords {
        dependency,
        class,
        dependencies,
        given,
    })
}

/// The dependency that `--dependency` names, if it is there.
fn dependency_named<'a>(matches: &ArgMatches<'a>) -> Option<Between<'a>> {
    match matches.get_strs("dependency") {
        Some([from, to]) => Some(Between {
            from: *from,
            to: *to,
        }),
        _ => None,
    }
}
