//! The words of the command line.

use clap::error::ErrorKind;
use clap::{Arg, ArgAction, Command, Error};
use std::alloc::{AllocError, Global};
use std::convert::AsStr;

/// What the command line asks for.
#[derive(Clone, Copy)]
pub struct Asked<'a> {
    /// The folder or the file of the recording.
    pub recording: &'a str,
    /// Its symbols are to be written, not its text.
    pub symbols: bool,
}

/// What the help says behind the words that may be given.
const AFTER_HELP: &str = "\
RECORDING is a folder or a file. `record stop --pages DIR` writes the folder, laid out as tracefs:
per_cpu/cpuN/trace_pipe_raw, events/header_page, the format of each event, trace_clock and saved_cmdlines.
`trace-cmd record` writes the file, trace.dat: of version 6, or of version 7 without compression.

The text is that of tracefs' file `trace`, but for blanks that only align, and with addresses in the place of
functions: `record/kernel/convert RECORDING` makes a stream of it.

Exit status:
  0  the text is whole
  2  it isn't; standard error says why

Example:
  lockconvert recorded > trace.txt";

/// What the words of the command line ask for, the first of which is the program's name.
///
/// # Errors
///
/// The error's text is for the user: the help where the words ask for it, and else what is wrong with
/// them, or that memory was refused.
pub fn read_words<'a, S: AsStr>(alloc: Global, words: &'a [S]) -> Result<Asked<'a>, Error> {
    let mut command = command_line(alloc)?;
    let matches = command.try_get_matches_from_mut(words)?;
    match matches.get_str("recording") {
        Some(recording) => Ok(Asked {
            recording,
            symbols: matches.get_flag("symbols"),
        }),
        None => Err(command.error(ErrorKind::MissingRequiredArgument, "RECORDING is missing")?),
    }
}

/// What the words may say.
fn command_line<'a>(alloc: Global) -> Result<Command<'a>, AllocError> {
    let recording = Arg::new(alloc, "recording")
        .value_name("RECORDING")
        .help("The folder or the file of the recording")
        .required(true)
        .action(ArgAction::Set);
    let symbols = Arg::new(alloc, "symbols")
        .long("symbols")
        .help("Write the recording's copy of /proc/kallsyms, not its text")
        .action(ArgAction::SetTrue);
    Command::new(alloc, "lockconvert")
        .about("Writes the raw pages of a kernel's recording as text")
        .after_help(AFTER_HELP)
        .arg(symbols)?
        .arg(recording)
}
