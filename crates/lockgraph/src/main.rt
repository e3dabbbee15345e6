//! Answers questions on recorded traces, over the report that lockcheck gives of them.
#![tactic(auto)]

ghost use Rattle.std.specs.Prelude.{◌≡◌, ◌≢◌, IsErr, Ok};
ghost use Rattle.std.specs.Process.{exit_status};
ghost use Rattle.clap.specs.Values.{kind_of};
ghost use Rattle.clap.specs.declared.error.kind.ErrorKind.{ErrorKind};

mod cutting;
mod dot;
mod explain;
mod fixed;
mod found;
mod groups;
mod list;
mod news;
mod occurrences;
mod reduce;
mod report;
mod rows;
mod shown;
mod stats;

use cutting::answer_cut;
use dot::answer_dot;
use explain::answer_explain;
use ld_check::{MOST_WORKERS, Verdict};
use ld_commands::{Asked, read_words};
use ld_files::Fault;
use list::answer_list;
use news::answer_new;
use reduce::answer_reduce;
use report::answer_check;
use rows::{answer_format, answer_json};
use stats::answer_stats;
use std::env::VarError;
use std::fmt::Display;
use std::io::IsTerminal;
use std::process::ExitCode;
use std::rt::{Env, Files};
use std::sync::Wait;
use std::thread::Threads;
use std::{env, io};

/// The exit status where there is no answer.
const NO_ANSWER: u8 = 2;

const _: () = prove!(NO_ANSWER == 1 + 1);

// The words of the command line ask for no more workers than a check takes.
const _: () = prove!(ld_commands::MOST_WORKERS == MOST_WORKERS);

fn main(rt: HostRuntime) -> ExitCode {
    let words = match given_words(&rt) {
        Ok(words) => words,
        Err(error) if error.kind() == io::ErrorKind::InvalidData => {
            return refuse(&rt, "a word of the command line is not UTF-8");
        }
        Err(error) => return refuse(&rt, error),
    };
    match read_words(rt.alloc(), words.as_slice()) {
        Ok(asked) => {
            let outcome = answer(&rt, &asked, shows_colours(&rt));
            end(&rt, outcome)
        }
        Err(error) => tell(&rt, error),
    }
}

/// Does what the words ask for, in colours if these are to be shown. May wait.
fn answer<'a, R: Files + io::Input + Print + AllocGlobal + Threads + Wait + Sync>(
    rt: &R,
    asked: &Asked<'a>,
    colours: bool,
) -> Result<Verdict, Fault<'a>> {
    let outcome = match asked {
        Asked::Check(words) => answer_check(rt, words),
        Asked::Cut(words) => answer_cut(rt, words),
        Asked::Dot(words) => answer_dot(rt, words),
        Asked::Explain(words) => answer_explain(rt, words, colours),
        Asked::Format(words) => answer_format(rt, words),
        Asked::Json(words) => answer_json(rt, words),
        Asked::List(words) => answer_list(rt, words),
        Asked::New(words) => answer_new(rt, words),
        Asked::Reduce(words) => answer_reduce(rt, words),
        Asked::Stats(words) => answer_stats(rt, words),
    };
    match outcome {
        Ok(verdict) => Ok(verdict),
        Err(fault) => Err(fault.of_files(&asked.given().files)),
    }
}

/// The exit status of a command that ended so. Where there is no whole answer, standard error says why.
fn end<R: Eprint>(rt: &R, outcome: Result<Verdict, Fault<'_>>) -> ExitCode
    ensures clean { outcome.entry ≡ Ok Verdict.Clean → exit_status result ≡ 0 }
    ensures violations { outcome.entry ≡ Ok Verdict.Violations → exit_status result ≡ 1 }
    ensures refused { outcome.entry ≡ Ok Verdict.Refused → exit_status result ≡ 3 }
    ensures fault { IsErr outcome.entry → exit_status result ≡ NO_ANSWER }
{
    match outcome {
        Ok(verdict) => ExitCode::from(verdict.status()),
        Err(fault) => refuse(rt, fault),
    }
}

/// Whether standard output shows colours: it is a terminal, which the variable TERM doesn't call `dumb`, and NO_COLOR is
/// empty or isn't set.
fn shows_colours(rt: &HostRuntime) -> bool {
    let is_wanted = match env::var(rt, "NO_COLOR") {
        Ok(word) => word.is_empty(),
        Err(error) => error == VarError::NotPresent,
    };
    is_wanted && !is_dumb(rt) && rt.stdout().is_terminal()
}

/// Whether the variable TERM says that the terminal shows plain text alone.
fn is_dumb(rt: &HostRuntime) -> bool {
    match env::var(rt, "TERM") {
        Ok(word) => word.as_str() == "dumb",
        Err(_) => false,
    }
}

/// The words of the command line, the program's name first.
fn given_words<R: Env + AllocGlobal>(rt: &R) -> io::Result<Vec<String>> {
    Ok(env::args(rt)?.collect(rt.alloc())?)
}

/// Prints clap's text: the help or the version on standard output, or what is wrong with the words on
/// standard error.
fn tell<R: Print + Eprint>(rt: &R, error: clap::Error) -> ExitCode
    ensures { (kind_of error ≢ ErrorKind.DisplayHelp)
        → (kind_of error ≢ ErrorKind.DisplayVersion) → exit_status result ≡ NO_ANSWER }
{
    match error.print(rt) {
        Ok(()) if error.use_stderr() => ExitCode::from(NO_ANSWER),
        Ok(()) => ExitCode::SUCCESS,
        Err(fault) => refuse(rt, fault),
    }
}

/// Says on standard error why there is no answer. Where that fails too, the status alone says so.
fn refuse<D: Display + Drop>(rt: &impl Eprint, reason: D) -> ExitCode
    ensures { exit_status result ≡ NO_ANSWER }
{
    let _ = eprintln!(rt; "lockgraph: {reason}");
    ExitCode::from(NO_ANSWER)
}
