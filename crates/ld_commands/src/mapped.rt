//! The arguments of commands that read maps.

use crate::words::{Given, read_given};
use clap::error::ErrorKind;
use clap::{Arg, ArgAction, ArgMatches, Command, Error};
use std::alloc::Global;

/// Files with streams, and their maps.
#[derive(Drop)]
pub struct Mapped<'a> {
    /// The names of the maps, of the files in turn: no more than there are files. Each other file has the map beside
    /// it, if there is one.
    pub maps: Vec<&'a str>,
    /// The files with the streams, and how they are read.
    pub given: Given<'a>,
}

/// `--map MAP`, which may be given several times.
pub fn named_map<'a>(alloc: Global) -> Arg<'a> {
    Arg::new(alloc, "map")
        .long("map")
        .value_name("MAP")
        .help("The map that a recorder wrote of a file; the first map is that of the first file")
        .action(ArgAction::Append)
}

/// Which files and maps the arguments name.
///
/// # Errors
///
/// Those of `read_given`, and if there are more maps than files.
pub fn read_mapped<'a>(
    alloc: Global,
    command: &mut Command<'a>,
    matches: &ArgMatches<'a>,
) -> Result<Mapped<'a>, Error> {
    read_mapped_beside(alloc, command, matches, None)
}

/// The same, if the command reads this file beside them.
///
/// # Errors
///
/// Those of `read_mapped`.
pub fn read_mapped_beside<'a>(
    alloc: Global,
    command: &mut Command<'a>,
    matches: &ArgMatches<'a>,
    other: Option<&'a str>,
) -> Result<Mapped<'a>, Error> {
    let maps = match matches.get_strs("map") {
        Some(names) => names.to_vec(alloc)?,
        None => Vec::new(alloc),
    };
    let mut others = maps.as_slice().to_vec(alloc)?;
    if let Some(other) = other {
        others.push(other)?;
    }
    let given = read_given(alloc, command, matches, &others)?;
    if maps.len() > given.files.len() {
        return Err(command.error(
            ErrorKind::ArgumentConflict,
            "there are more maps than files",
        )?);
    }
    Ok(Mapped { maps, given })
}
