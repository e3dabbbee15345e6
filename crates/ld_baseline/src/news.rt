//! The report of what is new.
ghost use Rattle.std.specs.Prelude.{◌≡◌, ◌++◌, ℕ, [], Err, IfOk, IfSome, None, OnErr, OnOk, Some, if◌then◌else◌};
ghost use Rattle.ld_trace.specs.Lines.{text_of};
ghost use Rattle.ld_baseline.specs.Said.{said_by};
ghost use Rattle.ld_baseline.specs.Known.{is_among, unknown_line};
ghost use Rattle.ld_baseline.specs.News.{count_new, count_staying, gone_note, is_known_said, is_new, last_line, new_report, staying, stays};
ghost use Rattle.ld_baseline.specs.declared.news.SelectFault.TheVariants.{Memory};

use crate::gone::gone_lines;
use crate::known::{Known, is_last, is_summary_or_refused, unknown_line};
use crate::said::said_by;
use ld_trace::{next_line, text};
use std::alloc::{AllocError, Global};
use std::io::Write;

/// The report of what is new.
#[derive(Debug, Drop)]
pub struct NewReport {
    /// Its lines, as they stand in the report, and the last one.
    pub text: Vec<u8>,
    /// How many violations are new.
    pub count: u64,
}

/// Why there is no report of what is new.
#[derive(Clone, Copy, Debug, PartialEq, Eq)]
pub enum SelectFault {
    /// This line of the known text, counted from 1, says something and is no line of a report.
    UnknownLine(u64),
    /// A growth of memory was refused.
    Memory,
}

impl From<AllocError> for SelectFault {
    ghost from_gives = { λ _ fault. fault ≡ Memory };

    fn from(_refusal: AllocError) -> SelectFault {
        SelectFault::Memory
    }
}

/// Whether a line of a report, without its end, says what is known.
fn is_known(text: &[u8], known: &Known<'_>) -> bool
    ensures { result ≡ is_known_said (is_among known.now) (said_by text.now) }
{
    match said_by(text) {
        Some(said) => known.has(said),
        None => false,
    }
}

/// Whether a line of a report stays.
fn stays(line: &[u8], known: &Known<'_>) -> bool
    ensures { result ≡ stays (is_among known.now) line.now }
{
    let text = text(line);
    !is_last(text) && !is_known(text, known)
}

/// Whether a line of a report is that of a new violation.
fn is_new(line: &[u8], known: &Known<'_>) -> bool
    ensures { result ≡ is_new (is_among known.now) line.now }
{
    stays(line, known) && !is_summary_or_refused(text(line))
}

/// Writes a line of a report where it stays.
fn write_line(out: &mut Vec<u8>, line: &[u8], known: &Known<'_>) -> Result<(), AllocError>
    ensures { OnOk result (out.new.items ≡ out.old.items ++
        (if stays (is_among known.now) line.now then line.now else [])) }
{
    if stays(line, known) {
        out.extend_from_slice(line)?;
    }
    Ok(())
}

/// 1 for what holds, else 0.
pub(crate) fn one_if(holds: bool) -> u64
    ensures { result ≡ (if holds then 1 else 0) }
{
    u64::from(holds)
}

/// The lines of a report that stay, and how many of them are of violations.
fn staying(alloc: Global, report: &[u8], known: &Known<'_>) -> Result<NewReport, AllocError>
    ensures text { IfOk result (λ new. new.text.items ≡ staying (is_among known.now) report.now) }
    ensures count { IfOk result (λ new. new.count ≡ count_staying (is_among known.now) report.now) }
{
    let mut text = Vec::new(alloc);
    let mut count = 0;
    let mut rest = report;
    while let Some((line, after)) = next_line(rest) {
        write_line(&mut text, line, known)?;
        count += one_if(is_new(line, known));
        rest = after;
    }
    Ok(NewReport { text, count })
}

/// Writes how many violations are new.
fn write_last(text: &mut Vec<u8>, count: u64) -> Result<(), AllocError>
    ensures { OnOk result (text.new.items ≡ text.old.items ++ last_line count) }
{
    if count == 0 {
        writeln!(text, "nothing new")
    } else {
        writeln!(text, "new {count}")
    }
    .map_err(|_| AllocError)
}

/// Writes a comment that says how many known lines match nothing, if there are some.
fn write_note(text: &mut Vec<u8>, count: u64) -> Result<(), AllocError>
    ensures { OnOk result (text.new.items ≡ text.old.items ++ gone_note count) }
{
    match count {
        0 => Ok(()),
        _ => writeln!(
            text,
            "# known lines that match nothing: {count} (--fixed lists them)"
        )
        .map_err(|_| AllocError),
    }
}

/// The report of what is new in a report: its lines, in its order, without those of violations that a
/// line of the known text says too, by kind, state and classes, whatever their witnesses and walks; a comment
/// that says how many known lines match nothing, if there are some; and in place of its last line one that says
/// how many violations are left.
///
/// # Errors
///
/// `UnknownLine` exactly where a line of the known text says something and is no line of a report,
/// with the first such line, whatever memory there is; and `Memory` where a growth was refused.
pub fn new_report(alloc: Global, report: &[u8], known: &[u8]) -> Result<NewReport, SelectFault>
    ensures text { IfOk result (λ new. new.text.items ≡ new_report report.now known.now) }
    ensures count { IfOk result (λ new. new.count ≡ count_new report.now known.now) }
    ensures unknown { IfSome (unknown_line known.now) (λ line.
        result ≡ Err (SelectFault.UnknownLine line)) }
    ensures memory { unknown_line known.now ≡ None →
        OnErr result (result ≡ Err SelectFault.Memory) }
{
    if let Some(line) = unknown_line(known) {
        return Err(SelectFault::UnknownLine(line));
    }
    let gone = gone_lines(alloc, report, known)?;
    let known = Known::of(alloc, known)?;
    let mut new = staying(alloc, report, &known)?;
    let count = new.count;
    write_note(&mut new.text, gone.count)?;
    write_last(&mut new.text, count)?;
    Ok(new)
}
