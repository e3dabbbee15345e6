//! The arguments of `explain`.

use crate::mapped::{Mapped, named_map, read_mapped};
use crate::words::{count_of_workers, named_files};
use clap::{Arg, ArgAction, ArgMatches, Command, Error, value_parser};
use ld_rows::Kind;
use std::alloc::{AllocError, Global};

/// The names of the kinds of violations.
const KINDS: [&str; 4] = ["recursion", "inversion", "conflict", "forbidden"];

/// How many violations are explained by default.
const DEFAULT_MOST: u64 = 20;

/// The end of the help of `explain`, below its arguments.
const AFTER_EXPLAIN: &str = "\
Each violation has its line of the report, followed by the dependencies of its cycle or path. A dependency is shown at
its first occurrence: the label of the trace, the task, FILE:LINE and the event there. Below it are the locks that the
task held in the same handler, or outside any, each with its acquisition. A conflict and a forbidden path also have
both ends: where a handler acquires the class, with the handlers that the task is in; and where the class is held with
interrupts enabled, and since when they are.

The class L!read, for which recursive readers of L wait, is shown as L (read) if a task waits for it, and as
L (written) if a task holds it.

If the first occurrences of an inversion are by one task of one trace, or under a common lock, a line says so. It
begins with `both`, or `all` for more than two dependencies.

With a map each line has its function and source line below it, or the line of the kernel's recording. A class has,
where it is first named, what its locks are and where they are acquired most. The recorders write maps: STREAM.places
for a program, the file of convert --map for a kernel. The first --map belongs to the first file, and so on. A file
without one has the map FILE.places, if that is there. --map /dev/null leaves it out.

Rejected traces come first, unless --only or --class choose violations. Each has the faulty line, what its verb takes,
what is wrong there, and what the task had open.

Violations that share dependencies are grouped, below the dependency that most of them have. What was shown before is
marked `above`. The last line counts the violations that are explained, and those that are not.

Exit status, whatever is chosen: 1 for violations, 3 for none but a rejected trace, 0 otherwise, 2 if there is no whole
answer.

Example:
  lockgraph explain --class rx_lock --most 5 run.trace other.trace
  lockgraph explain --map run.trace.places run.trace";

/// What `explain` is asked.
#[derive(Drop)]
pub struct ExplainWords<'a> {
    /// The kind of the violations that are explained; `None` for all.
    pub kind: Option<Kind>,
    /// The class that they are part of, `name` or `name/N`; `None` for all.
    pub class: Option<&'a [u8]>,
    /// How many of them are explained at most; 0 for all.
    pub most: u64,
    /// The files with the streams, and their maps.
    pub mapped: Mapped<'a>,
}

/// `explain [--only KIND] [--class NAME] [--most N] [--map FILE].. [--workers N] [FILE]..`.
pub fn explain_command<'a>(alloc: Global) -> Result<Command<'a>, AllocError> {
    Command::new(alloc, "explain")
        .about("Explain each violation: who held what, and where")
        .after_help(AFTER_EXPLAIN)
        .arg(
            Arg::new(alloc, "only")
                .long("only")
                .value_name("KIND")
                .help("Only violations of this kind")
                .action(ArgAction::Set)
                .value_parser(KINDS.as_slice()),
        )?
        .arg(
            Arg::new(alloc, "class")
                .long("class")
                .value_name("NAME")
                .help("Only violations with this class, NAME or NAME/N")
                .action(ArgAction::Set),
        )?
        .arg(
            Arg::new(alloc, "most")
                .long("most")
                .value_name("N")
                .help("Explain at most N violations, and N rejected traces, 0 for all")
                .action(ArgAction::Set)
                .default_value("20")
                .value_parser(value_parser!(u64)),
        )?
        .arg(named_map(alloc))?
        .arg(count_of_workers(alloc))?
        .arg(named_files(alloc))
}

/// What the arguments of `explain` ask for.
///
/// # Errors
///
/// Those of `read_words`.
pub fn read_explain<'a>(
    alloc: Global,
    command: &mut Command<'a>,
    matches: &ArgMatches<'a>,
) -> Result<ExplainWords<'a>, Error> {
    let kind = kind_named(matches.get_str("only"));
    let class = class_named(matches);
    let most = matches.get_one::<u64>("most").unwrap_or(DEFAULT_MOST);
    let mapped = read_mapped(alloc, command, matches)?;
    Ok(ExplainWords {
        kind,
        class,
        most,
        mapped,
    })
}

/// The bytes of the class that `--class` names, if it is there.
pub fn class_named<'a>(matches: &ArgMatches<'a>) -> Option<&'a [u8]> {
    match matches.get_str("class") {
        Some(name) => Some(name.as_bytes()),
        None => None,
    }
}

/// The kind of this name; `None` without a name.
fn kind_named(name: Option<&str>) -> Option<Kind> {
    match name {
        Some("recursion") => Some(Kind::Recursion),
        Some("inversion") => Some(Kind::Inversion),
        Some("conflict") => Some(Kind::Conflict),
        Some("forbidden") => Some(Kind::Forbidden),
        _ => None,
    }
}
