//! The text of a report.
ghost use Rattle.std.specs.Prelude.{◌≡◌, ◌++◌, ◌↔◌, IfOk, OnOk, flat_map, map};
ghost use Rattle.ld_batch.specs.Batch.{AreOutcomes, sources_of};
ghost use Rattle.ld_book.specs.Findings.{plain_conflict_row, plain_cycle_row, plain_findings};
ghost use Rattle.ld_book.specs.Violations.{HasViolation};
ghost use Rattle.ld_report.specs.Report.{IsReport, SaysClean, conflict_line, cycle_line};
ghost use Rattle.ld_report.specs.Report.{forbidden_line, last_line, refused_lines, summary_line};
ghost use Rattle.ld_report.specs.Report.{violation_lines, violations};

use crate::lines::{
    begin_forbidden, write_conflict, write_cycle, write_forbidden, write_last, write_refused,
    write_summary,
};
use ld_book::{Book, ConflictRow, CycleRow, Findings, ForbiddenRow, ForbiddenRows, Totals, Traces};
use ld_rules::{Listed, Outcome};
use std::alloc::{AllocError, Global};

/// The report of the traces that a book lists, in whatever order they came.
///
/// # Errors
///
/// `AllocError` where a growth of memory was refused.
pub fn report(alloc: Global, book: &Book<'_>) -> Result<Vec<u8>, AllocError>
    ensures text { IfOk result (λ text. IsReport book.now text.items) }
    ensures clean { IfOk result (λ text. SaysClean text.items ↔ (¬ HasViolation book.now)) }
{
    let totals = book.totals();
    let findings = book.findings(alloc)?;
    // Where no line is about a single trace, their order isn't asked for.
    if totals.refused == 0 && count_of(&findings) == 0 {
        return quiet_text(alloc, &totals);
    }
    let traces = Traces::new(alloc, book)?;
    text_of(alloc, &totals, &traces, &findings)
}

/// The lines where no trace is refused and there is no violation.
fn quiet_text(alloc: Global, totals: &Totals) -> Result<Vec<u8>, AllocError>
    ensures { IfOk result (λ text. text.items ≡ summary_line totals.now ++ last_line 0) }
{
    let mut lines = Vec::new(alloc);
    write_summary(&mut lines, totals)?;
    write_last(&mut lines, 0)?;
    Ok(lines)
}

/// All lines, from the totals of the traces to how many violations there are.
fn text_of(
    alloc: Global,
    totals: &Totals,
    traces: &Traces<'_, '_>,
    findings: &Findings<'_, '_>,
) -> Result<Vec<u8>, AllocError>
    ensures { IfOk result (λ text. text.items ≡
        summary_line totals.now ++ refused_lines traces.now
        ++ violation_lines traces.now (plain_findings findings.now)
        ++ last_line (violations (plain_findings findings.now))) }
{
    let mut text = Vec::new(alloc);
    write_summary(&mut text, totals)?;
    write_all_refused(&mut text, traces.listed())?;
    write_violations(alloc, &mut text, traces, findings)?;
    write_last(&mut text, count_of(findings))?;
    Ok(text)
}

/// Writes which traces are refused, and why.
fn write_all_refused(text: &mut Vec<u8>, listed: &[Listed<'_>]) -> Result<(), AllocError>
    requires { AreOutcomes listed.now }
    ensures { OnOk result (text.new.items ≡ text.old.items ++
        refused_lines (sources_of listed.now)) }
{
    for trace in listed {
        if let Outcome::Refused { line, fault } = trace.outcome {
            write_refused(text, trace.source.name, line, fault)?;
        }
    }
    Ok(())
}

/// Writes every violation.
fn write_violations(
    alloc: Global,
    text: &mut Vec<u8>,
    traces: &Traces<'_, '_>,
    findings: &Findings<'_, '_>,
) -> Result<(), AllocError>
    ensures { OnOk result (text.new.items ≡ text.old.items ++
        violation_lines traces.now (plain_findings findings.now)) }
{
    write_cycles(text, traces, findings.cycles.items())?;
    write_conflicts(text, traces, findings.conflicts.items())?;
    write_all_forbidden(alloc, text, traces, &findings.forbidden.hard)?;
    write_all_forbidden(alloc, text, traces, &findings.forbidden.soft)
}

/// Writes the dependencies on cycles.
fn write_cycles(
    text: &mut Vec<u8>,
    traces: &Traces<'_, '_>,
    cycles: &[CycleRow<'_, '_>],
) -> Result<(), AllocError>
    ensures { OnOk result (text.new.items ≡ text.old.items ++
        flat_map (cycle_line traces.now) (map plain_cycle_row cycles.now)) }
{
    for cycle in cycles {
        write_cycle(text, traces, cycle)?;
    }
    Ok(())
}

/// Writes the conflicts.
fn write_conflicts(
    text: &mut Vec<u8>,
    traces: &Traces<'_, '_>,
    conflicts: &[ConflictRow<'_>],
) -> Result<(), AllocError>
    ensures { OnOk result (text.new.items ≡ text.old.items ++
        flat_map (conflict_line traces.now) (map plain_conflict_row conflicts.now)) }
{
    for conflict in conflicts {
        write_conflict(text, traces, conflict)?;
    }
    Ok(())
}

/// Writes the forbidden walks of a state.
fn write_all_forbidden(
    alloc: Global,
    text: &mut Vec<u8>,
    traces: &Traces<'_, '_>,
    walks: &ForbiddenRows<'_, '_>,
) -> Result<(), AllocError>
    ensures { OnOk result (text.new.items ≡ text.old.items ++
        flat_map (forbidden_line traces.now) walks.now) }
{
    let mut begin = Vec::new(alloc);
    let mut before: Option<ForbiddenRow<'_, '_>> = None;
    for place in 0..walks.len() {
        let walk = walks.row(place);
        begin_forbidden(&mut begin, traces, before.as_ref(), &walk)?;
        write_forbidden(text, traces, &begin, &walk)?;
        before = Some(walk);
    }
    Ok(())
}

/// How many violations there are.
fn count_of(findings: &Findings<'_, '_>) -> u64
    ensures { result ≡ violations (plain_findings findings.now) }
{
    let conflicts = findings.conflicts.items().len();
    let forbidden = findings.forbidden.hard.len() + findings.forbidden.soft.len();
    (findings.cycles.items().len() + conflicts + forbidden) as u64
}
