//! Checks the order of locks in recorded traces.
#![tactic(auto)]

ghost use Rattle.std.specs.Prelude.{◌≡◌, ◌≢◌, IsErr, Ok};
ghost use Rattle.std.specs.Process.{exit_status};
ghost use Rattle.clap.specs.Values.{kind_of};
ghost use Rattle.clap.specs.declared.error.kind.ErrorKind.{ErrorKind};

use ld_check::{MOST_WORKERS, RunFault, run};
use ld_cli::workers;
use ld_io::Std;
use ld_report::Verdict;
use std::fmt::Display;
use std::process::ExitCode;
use std::rt::Env;
use std::{env, io};

/// The exit status where there is no report.
const NO_REPORT: u8 = 2;

const _: () = prove!(NO_REPORT == 1 + 1);

// The words of the command line ask for no more workers than a run takes.
const _: () = prove!(ld_cli::MOST_WORKERS == MOST_WORKERS);

fn main(rt: HostRuntime) -> ExitCode {
    let words = match given_words(&rt) {
        Ok(words) => words,
        Err(error) if error.kind() == io::ErrorKind::InvalidData => {
            return refuse(&rt, "a word of the command line is not UTF-8");
        }
        Err(error) => return refuse(&rt, error),
    };
    let workers = match workers(rt.alloc(), words.as_slice()) {
        Ok(workers) => workers,
        Err(error) => return answer(&rt, error),
    };
    let mut input = Std::new(rt.reader());
    let mut output = Std::new(io::writer(&rt));
    let outcome = run(&rt, rt.alloc(), &mut input, &mut output, workers);
    end(&rt, outcome)
}

/// The exit status of a run that ended so. Where there is no whole report, standard error says why.
fn end<R: Eprint>(rt: &R, outcome: Result<Verdict, RunFault>) -> ExitCode
    ensures clean { outcome ≡ Ok Verdict.Clean → exit_status result ≡ 0 }
    ensures violations { outcome ≡ Ok Verdict.Violations → exit_status result ≡ 1 }
    ensures refused { outcome ≡ Ok Verdict.Refused → exit_status result ≡ 3 }
    ensures fault { IsErr outcome → exit_status result ≡ NO_REPORT }
{
    match outcome {
        Ok(verdict) => ExitCode::from(verdict.status()),
        Err(fault) => refuse(rt, fault),
    }
}

/// The words of the command line, the program's name first.
fn given_words<R: Env + AllocGlobal>(rt: &R) -> io::Result<Vec<String>> {
    Ok(env::args(rt)?.collect(rt.alloc())?)
}

/// Prints clap's text: the help on standard output, or what is wrong with the words on standard
/// error.
fn answer<R: Print + Eprint>(rt: &R, error: clap::Error) -> ExitCode
    ensures { (kind_of error ≢ ErrorKind.DisplayHelp)
        → (kind_of error ≢ ErrorKind.DisplayVersion) → exit_status result ≡ NO_REPORT }
{
    match error.print(rt) {
        Ok(()) if error.use_stderr() => ExitCode::from(NO_REPORT),
        Ok(()) => ExitCode::SUCCESS,
        Err(fault) => refuse(rt, fault),
    }
}

/// Says on standard error why there is no report. Where that fails too, the status alone says so.
fn refuse<D: Display + Drop>(rt: &impl Eprint, reason: D) -> ExitCode
    ensures { exit_status result ≡ NO_REPORT }
{
    let _ = eprintln!(rt; "lockcheck: {reason}");
    ExitCode::from(NO_REPORT)
}
