//! How many violations there are, of each kind and state.
ghost use Rattle.std.specs.Prelude.{◌≡◌, ◌++◌, OnOk, filter, length, not};
ghost use Rattle.ld_class.specs.Names.{plain_class, same_class};
ghost use Rattle.ld_overview.specs.OfBook.Findings.{AreByState, AreFindings, PlainFindings, plain_findings};
ghost use Rattle.ld_rules.specs.Flags.{same_state};
ghost use Rattle.ld_texts.specs.Stats.{figure_lines, of_violations};

use crate::writing::write_figures;
use ld_overview::{Book, ConflictRow, CycleRow, Findings};
use ld_trace::State;
use std::alloc::{AllocError, Global};

/// Writes how many violations the traces of a book show, and how many of each kind.
pub(crate) fn write_violations(
    alloc: Global,
    text: &mut Vec<u8>,
    book: &Book<'_>,
) -> Result<(), AllocError>
    ensures { OnOk result ((found : PlainFindings) × (AreFindings book.now found ×
        (text.new.items ≡ text.old.items ++ figure_lines (of_violations found)))) }
{
    let findings = book.findings(alloc)?;
    write_found(text, &findings)
}

/// Writes how many violations were found, and how many of each kind.
fn write_found(text: &mut Vec<u8>, findings: &Findings<'_, '_>) -> Result<(), AllocError>
    requires { AreByState findings.now.forbidden }
    ensures { OnOk result (text.new.items ≡ text.old.items
        ++ figure_lines (of_violations (plain_findings findings.now))) }
{
    let cycles = findings.cycles.items();
    let conflicts = findings.conflicts.items();
    let hard = findings.forbidden.hard.len();
    let soft = findings.forbidden.soft.len();
    let all = cycles.len() + conflicts.len() + (hard + soft);
    write_figures(
        text,
        &[
            ("violations", all as u64),
            ("recursions", recursions(cycles)),
            ("inversions", inversions(cycles)),
            ("conflicts-hard", conflicts_of(State::Hard, conflicts)),
            ("conflicts-soft", conflicts_of(State::Soft, conflicts)),
            ("forbidden-hard", hard as u64),
            ("forbidden-soft", soft as u64),
        ],
    )
}

/// How many of these dependencies are of a class on itself.
fn recursions(cycles: &[CycleRow<'_, '_>]) -> u64
    ensures { result ≡ length (filter (λ row. same_class (plain_class row.from) (plain_class row.to)) cycles.now) }
{
    cycles.iter().filter(|row| row.from == row.to).count() as u64
}

/// How many of these dependencies are between two classes.
fn inversions(cycles: &[CycleRow<'_, '_>]) -> u64
    ensures { result ≡ length (filter (λ row. not (same_class (plain_class row.from) (plain_class row.to))) cycles.now) }
{
    cycles.iter().filter(|row| row.from != row.to).count() as u64
}

/// How many conflicts are of this state.
fn conflicts_of(state: State, conflicts: &[ConflictRow<'_>]) -> u64
    ensures { result ≡ length (filter (λ row. same_state state row.state) conflicts.now) }
{
    conflicts.iter().filter(|row| row.state == state).count() as u64
}
