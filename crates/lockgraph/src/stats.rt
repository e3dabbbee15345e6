//! `stats`: how much the traces are and show.

use crate::shown::{Topic, answer_shown};
use ld_check::Verdict;
use ld_commands::StatsWords;
use ld_files::Fault;
use ld_texts::Wanted;
use std::io;
use std::rt::Files;
use std::sync::Wait;
use std::thread::Threads;

/// Writes how much the traces of the named files are and show. May wait.
///
/// # Errors
///
/// Those of `answer_shown`.
pub fn answer_stats<'a, R: Files + io::Input + Print + AllocGlobal + Threads + Wait + Sync>(
    rt: &R,
    words: &StatsWords<'a>,
) -> Result<Verdict, Fault<'a>> {
    answer_shown(rt, &words.given, Topic::Whole(Wanted::Stats))
}
