//! The arguments of `json`.

use crate::mapped::{Mapped, named_map, read_mapped};
use crate::words::{count_of_workers, most_told, named_files, read_most};
use clap::{ArgMatches, Command, Error};
use std::alloc::{AllocError, Global};

/// The end of the help of `json`, below its arguments.
const AFTER_JSON: &str = "\
The kind of an object is traces, refused, dependency, usage, recursion, inversion, conflict, forbidden, group or, of the
last one, end. docs/report.schema.json describes each object. With a map, as for explain, each line of a trace has the
calls that led there, or the line of the kernel's recording. With --most the last object still counts all violations.

Exit status: that of lockcheck, which is 1 for violations, 3 for none but a rejected trace, 0 otherwise, 2 if there is
no whole answer.

Example:
  lockgraph json run.trace other.trace > report.jsonl
  lockgraph json --map run.trace.places run.trace";

/// What `json` is asked.
#[derive(Drop)]
pub struct JsonWords<'a> {
    /// How many violations are told at most; 0 for all.
    pub most: u64,
    /// The files with the streams, and their maps.
    pub mapped: Mapped<'a>,
}

/// `json [--most N] [--map MAP].. [--workers N] [FILE]..`.
pub fn json_command<'a>(alloc: Global) -> Result<Command<'a>, AllocError> {
    Command::new(alloc, "json")
        .about("Print the report and its explanation as one JSON object a line, for tools")
        .after_help(AFTER_JSON)
        .arg(most_told(alloc))?
        .arg(named_map(alloc))?
        .arg(count_of_workers(alloc))?
        .arg(named_files(alloc))
}

/// What the arguments of `json` ask for.
///
/// # Errors
///
/// Those of `read_words`.
pub fn read_json<'a>(
    alloc: Global,
    command: &mut Command<'a>,
    matches: &ArgMatches<'a>,
) -> Result<JsonWords<'a>, Error> {
    let most = read_most(matches);
    let mapped = read_mapped(alloc, command, matches)?;
    Ok(JsonWords { most, mapped })
}
