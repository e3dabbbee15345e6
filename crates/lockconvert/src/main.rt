//! Reads the raw pages of a kernel's recording, and writes its events as text.
#![tactic(auto)]

ghost use Rattle.std.specs.Prelude.{◌≡◌, ◌≢◌, IsErr, Ok, OnOk};
ghost use Rattle.std.specs.Process.{exit_status};
ghost use Rattle.clap.specs.Values.{kind_of};
ghost use Rattle.clap.specs.declared.error.kind.ErrorKind.{ErrorKind};

mod entries;
mod fault;
mod folder;
mod formats;
mod names;
mod parts;
mod printing;
mod recorded;
mod words;

use fault::Fault;
use recorded::print_recording;
use std::fmt::Display;
use std::process::ExitCode;
use std::rt::Env;
use std::{env, io};
use words::read_words;

/// The exit status if the text isn't whole.
const NO_TEXT: u8 = 2;

const _: () = prove!(NO_TEXT == 1 + 1);

fn main(rt: HostRuntime) -> ExitCode {
    let words = match given_words(&rt) {
        Ok(words) => words,
        Err(error) if error.kind() == io::ErrorKind::InvalidData => {
            return refuse(&rt, "a word of the command line is not UTF-8");
        }
        Err(error) => return refuse(&rt, error),
    };
    match read_words(rt.alloc(), words.as_slice()) {
        Ok(asked) => {
            let outcome = print_recording(&rt, asked);
            end(&rt, outcome)
        }
        Err(error) => tell(&rt, error),
    }
}

/// The exit status of a run that ended so. If the text isn't whole, standard error says why.
fn end<R: Eprint>(rt: &R, outcome: Result<(), Fault>) -> ExitCode
    ensures whole { OnOk outcome (exit_status result ≡ 0) }
    ensures fault { IsErr outcome → exit_status result ≡ NO_TEXT }
{
    match outcome {
        Ok(()) => ExitCode::SUCCESS,
        Err(reason) => refuse(rt, reason),
    }
}

/// The words of the command line, the program's name first.
fn given_words<R: Env + AllocGlobal>(rt: &R) -> io::Result<Vec<String>> {
    Ok(env::args(rt)?.collect(rt.alloc())?)
}

/// Prints clap's text: the help on standard output, or what is wrong with the words on standard error.
fn tell<R: Print + Eprint>(rt: &R, error: clap::Error) -> ExitCode
    ensures { (kind_of error ≢ ErrorKind.DisplayHelp)
        → (kind_of error ≢ ErrorKind.DisplayVersion) → exit_status result ≡ NO_TEXT }
{
    match error.print(rt) {
        Ok(()) if error.use_stderr() => ExitCode::from(NO_TEXT),
        Ok(()) => ExitCode::SUCCESS,
        Err(fault) => refuse(rt, fault),
    }
}

/// Says on standard error why the text isn't whole. Where that fails too, the status alone says so.
fn refuse<D: Display + Drop>(rt: &impl Eprint, reason: D) -> ExitCode
    ensures { exit_status result ≡ NO_TEXT }
{
    let _ = eprintln!(rt; "lockconvert: {reason}");
    ExitCode::from(NO_TEXT)
}
