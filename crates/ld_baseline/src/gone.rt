//! The lines of a known text that match nothing in a report.
ghost use Rattle.std.specs.Prelude.{◌≡◌, ◌++◌, [], Err, IfOk, IfSome, None, OnErr, OnOk, count_by, if◌then◌else◌};
ghost use Rattle.ld_trace.specs.Lines.{lines};
ghost use Rattle.ld_baseline.specs.Known.{unknown_line};
ghost use Rattle.ld_baseline.specs.Gone.{count_gone, going, gone_lines, is_gone, is_in, with_lf};

use crate::known::unknown_line;
use crate::news::{SelectFault, one_if};
use crate::said::said_by;
use crate::violations::Violations;
use ld_trace::{next_line, text};
use std::alloc::{AllocError, Global};

/// The lines of a known text that match nothing in a report.
#[derive(Debug, Drop)]
pub struct GoneLines {
    /// They, in the order of the known text, each ended by LF.
    pub text: Vec<u8>,
    /// How many they are.
    pub count: u64,
}

/// Whether a line of a known text says something that isn't there.
fn is_gone(line: &[u8], violations: &Violations<'_>) -> bool
    ensures { result ≡ is_gone (is_in violations.now) line.now }
{
    match said_by(text(line)) {
        Some(known) => !violations.have(known),
        None => false,
    }
}

/// Writes a line of a known text where it says something that isn't there.
fn write_gone(out: &mut Vec<u8>, line: &[u8], violations: &Violations<'_>) -> Result<(), AllocError>
    ensures { OnOk result (out.new.items ≡ out.old.items ++
        (if is_gone (is_in violations.now) line.now then with_lf line.now else [])) }
{
    if is_gone(line, violations) {
        out.extend_from_slice(text(line))?;
        out.push(b'\n')?;
    }
    Ok(())
}

/// The lines of a known text that say what isn't there.
fn going(alloc: Global, known: &[u8], violations: &Violations<'_>) -> Result<GoneLines, AllocError>
    ensures text { IfOk result (λ gone. gone.text.items ≡ going (is_in violations.now) known.now) }
    ensures count { IfOk result (λ gone.
        gone.count ≡ count_by (is_gone (is_in violations.now)) (lines known.now)) }
{
    let mut text = Vec::new(alloc);
    let mut count = 0;
    let mut rest = known;
    while let Some((line, after)) = next_line(rest) {
        write_gone(&mut text, line, violations)?;
        count += one_if(is_gone(line, violations));
        rest = after;
    }
    Ok(GoneLines { text, count })
}

/// The lines of a known text that match nothing in a report, in its order: of each that says something neither kind, state
/// and classes are those of a violation, nor do they match by a `*`.
///
/// # Errors
///
/// Those of `new_report`.
pub fn gone_lines(alloc: Global, report: &[u8], known: &[u8]) -> Result<GoneLines, SelectFault>
    ensures text { IfOk result (λ gone. gone.text.items ≡ gone_lines report.now known.now) }
    ensures count { IfOk result (λ gone. gone.count ≡ count_gone report.now known.now) }
    ensures unknown { IfSome (unknown_line known.now) (λ line.
        result ≡ Err (SelectFault.UnknownLine line)) }
    ensures memory { unknown_line known.now ≡ None →
        OnErr result (result ≡ Err SelectFault.Memory) }
{
    if let Some(line) = unknown_line(known) {
        return Err(SelectFault::UnknownLine(line));
    }
    let violations = Violations::of(alloc, report)?;
    let gone = going(alloc, known, &violations)?;
    Ok(gone)
}
