//! Writes the lines of a report. Each call answers `AllocError` where memory for its text was refused.
ghost use Rattle.std.specs.Prelude.{◌≡◌, ◌++◌, IfSome, List, OnOk, decimal, drop};
ghost use Rattle.std.specs.Bool.{OnTrue};
ghost use Rattle.ld_class.specs.Names.{plain_class};
ghost use Rattle.ld_rules.specs.declared.outcome.Outcome.TheVariants.{Refused};
ghost use Rattle.ld_trace.specs.Sources.{PlainSource};
ghost use Rattle.ld_book.specs.Findings.{plain_conflict_row, plain_cycle_row, plain_forbidden_row};
ghost use Rattle.ld_report.specs.Inner.Begin.{forbidden_begin};
ghost use Rattle.ld_report.specs.Report.{class_text, conflict_line, cycle_line, forbidden_line};
ghost use Rattle.ld_report.specs.Report.{inversion_line, last_line, marked, place};
ghost use Rattle.ld_report.specs.Report.{recursion_line, refused_line, state_name, steps};
ghost use Rattle.ld_report.specs.Report.{summary_line, via};

use crate::labels::label;
use itoa::Buffer;
use ld_book::{ClassName, ConflictRow, CycleRow, ForbiddenRow, Totals, Traces, WalkNames};
use ld_rules::{TraceFault, Witness};
use ld_trace::State;
use std::alloc::AllocError;
use std::io::Write;

/// Writes how much the traces are and show.
pub fn write_summary(text: &mut Vec<u8>, totals: &Totals) -> Result<(), AllocError>
    ensures { OnOk result (text.new.items ≡ text.old.items ++ summary_line totals.now) }
{
    write_number(text, "traces ", totals.traces)?;
    write_number(text, " refused ", totals.refused)?;
    write_number(text, " events ", totals.events)?;
    write_number(text, " classes ", totals.classes)?;
    write_number(text, " dependencies ", totals.dependencies)?;
    text.push(b'\n')?;
    Ok(())
}

/// Writes why a trace is refused.
pub fn write_refused(
    text: &mut Vec<u8>,
    label: &[u8],
    line: u64,
    fault: TraceFault,
) -> Result<(), AllocError>
    ensures { OnOk result (text.new.items ≡ text.old.items ++
        refused_line label.now (Refused line fault)) }
{
    write_bytes(text, "refused ", label)?;
    let name = fault.name();
    writeln!(text, " line {line} {name}").map_err(|_| AllocError)
}

/// Writes a dependency on a cycle.
pub fn write_cycle(
    text: &mut Vec<u8>,
    traces: &Traces<'_, '_>,
    row: &CycleRow<'_, '_>,
) -> Result<(), AllocError>
    ensures { OnOk result (text.new.items ≡ text.old.items ++
        cycle_line traces.now (plain_cycle_row row.now)) }
{
    if row.from == row.to {
        write_recursion(text, traces, row)
    } else {
        write_inversion(text, traces, row)
    }
}

/// Writes a dependency of a class on itself.
fn write_recursion(
    text: &mut Vec<u8>,
    traces: &Traces<'_, '_>,
    row: &CycleRow<'_, '_>,
) -> Result<(), AllocError>
    ensures { OnOk result (text.new.items ≡ text.old.items ++
        recursion_line traces.now (plain_cycle_row row.now)) }
{
    write_name(text, "recursion ", row.from)?;
    write_place(text, " at ", traces, row.at)?;
    text.push(b'\n')?;
    Ok(())
}

/// Writes a dependency between two classes.
fn write_inversion(
    text: &mut Vec<u8>,
    traces: &Traces<'_, '_>,
    row: &CycleRow<'_, '_>,
) -> Result<(), AllocError>
    ensures { OnOk result (text.new.items ≡ text.old.items ++
        inversion_line traces.now (plain_cycle_row row.now)) }
{
    write_name(text, "inversion ", row.from)?;
    write_name(text, " -> ", row.to)?;
    write_place(text, " at ", traces, row.at)?;
    write_walk(text, &row.via.names())
}

/// Writes a class with both bits of a state.
pub fn write_conflict(
    text: &mut Vec<u8>,
    traces: &Traces<'_, '_>,
    row: &ConflictRow<'_>,
) -> Result<(), AllocError>
    ensures { OnOk result (text.new.items ≡ text.old.items ++
        conflict_line traces.now (plain_conflict_row row.now)) }
{
    write_state(text, "conflict ", row.state)?;
    write_class(text, " ", row.class, &row.marks)?;
    write_place(text, " in ", traces, row.safe_at)?;
    write_place(text, " on ", traces, row.unsafe_at)?;
    text.push(b'\n')?;
    Ok(())
}

/// Makes of `begin` what the line of a forbidden walk begins with. It has that of the row before, if there is one.
// Rows with one first end stand together, so most lines begin as the one before.
pub fn begin_forbidden(
    begin: &mut Vec<u8>,
    traces: &Traces<'_, '_>,
    before: Option<&ForbiddenRow<'_, '_>>,
    row: &ForbiddenRow<'_, '_>,
) -> Result<(), AllocError>
    requires { IfSome before (λ other. begin.old.items ≡ forbidden_begin traces.now (plain_forbidden_row other.now)) }
    ensures { OnOk result (begin.new.items ≡ forbidden_begin traces.now (plain_forbidden_row row.now)) }
{
    if let Some(other) = before {
        if begins_alike(other, row) {
            return Ok(());
        }
    }
    begin.clear();
    write_begin(begin, traces, row)
}

/// Whether the lines of two forbidden walks begin alike: they have one state and one first end.
fn begins_alike(row: &ForbiddenRow<'_, '_>, other: &ForbiddenRow<'_, '_>) -> bool
    ensures { OnTrue result ((sources : List PlainSource)
        → forbidden_begin sources (plain_forbidden_row row.now) ≡ forbidden_begin sources (plain_forbidden_row other.now)) }
{
    row.state == other.state
        && row.safe_at == other.safe_at
        && row.from_marks == other.from_marks
        && row.from == other.from
}

/// Writes what the line of a forbidden walk begins with: its state and its first end.
fn write_begin(
    text: &mut Vec<u8>,
    traces: &Traces<'_, '_>,
    row: &ForbiddenRow<'_, '_>,
) -> Result<(), AllocError>
    ensures { OnOk result (text.new.items ≡ text.old.items ++
        forbidden_begin traces.now (plain_forbidden_row row.now)) }
{
    write_state(text, "forbidden ", row.state)?;
    write_class(text, " ", row.from, &row.from_marks)?;
    write_place(text, " in ", traces, row.safe_at)
}

/// Writes a forbidden walk, whose line begins with `begin`.
pub fn write_forbidden(
    text: &mut Vec<u8>,
    traces: &Traces<'_, '_>,
    begin: &[u8],
    row: &ForbiddenRow<'_, '_>,
) -> Result<(), AllocError>
    requires { begin.now ≡ forbidden_begin traces.now (plain_forbidden_row row.now) }
    ensures { OnOk result (text.new.items ≡ text.old.items ++
        forbidden_line traces.now (plain_forbidden_row row.now)) }
{
    write_bytes(text, "", begin)?;
    write_class(text, " -> ", row.to, &row.to_marks)?;
    write_place(text, " on ", traces, row.unsafe_at)?;
    write_walk(text, &row.via)
}

/// Writes how many violations there are.
pub fn write_last(text: &mut Vec<u8>, count: u64) -> Result<(), AllocError>
    ensures { OnOk result (text.new.items ≡ text.old.items ++ last_line count) }
{
    if count == 0 {
        writeln!(text, "clean")
    } else {
        writeln!(text, "violations {count}")
    }
    .map_err(|_| AllocError)
}

/// Writes a number behind these words.
#[inline(always)]
fn write_number(text: &mut Vec<u8>, words: &str, number: u64) -> Result<(), AllocError>
    ensures { OnOk result (text.new.items ≡ text.old.items ++ words.now ++ decimal number) }
{
    write_bytes(text, words, Buffer::new().format(number).as_bytes())
}

/// Writes these bytes behind these words.
// Words of a known length are put there without a call, so what hands words on is inlined too.
#[inline(always)]
fn write_bytes(text: &mut Vec<u8>, words: &str, bytes: &[u8]) -> Result<(), AllocError>
    ensures { OnOk result (text.new.items ≡ text.old.items ++ words.now ++ bytes.now) }
{
    make_room(text, words.len().saturating_add(bytes.len()))?;
    text.extend_from_slice(words.as_bytes())?;
    text.extend_from_slice(bytes)?;
    Ok(())
}

/// How many bytes there is room for behind what is written at once: for a number and what stands around it.
const SPARE: usize = 64;

/// How many bytes a text grows by at least.
const LEAST_GROWTH: usize = 4_096;

/// Takes memory for so many bytes more and some behind them, where it isn't there.
#[inline(always)]
fn make_room(text: &mut Vec<u8>, count: usize) -> Result<(), AllocError>
    ensures { text.new.items ≡ text.old.items }
{
    let wanted = count.saturating_add(SPARE);
    if text.capacity() - text.len() >= wanted {
        return Ok(());
    }
    grow(text, wanted)
}

/// Takes memory for so many bytes more, by a quarter of the text at least: so it is copied a few times, and takes little
/// more than its length. No clause says so.
#[inline(never)]
fn grow(text: &mut Vec<u8>, wanted: usize) -> Result<(), AllocError>
    ensures { text.new.items ≡ text.old.items }
{
    text.reserve_exact(wanted.max(text.len() / 4).max(LEAST_GROWTH))
}

/// Writes the name of a class behind these words: `name`, or `name/N` where it is a subclass.
#[inline(always)]
fn write_name(text: &mut Vec<u8>, words: &str, class: ClassName<'_>) -> Result<(), AllocError>
    ensures { OnOk result (text.new.items ≡ text.old.items ++ words.now ++
        class_text (plain_class class.entry)) }
{
    write_bytes(text, words, class.name)?;
    if class.sub == 0 {
        return Ok(());
    }
    write_number(text, "/", u64::from(class.sub))
}

/// Writes where something was first seen, behind these words.
#[inline(always)]
fn write_place(
    text: &mut Vec<u8>,
    words: &str,
    traces: &Traces<'_, '_>,
    at: Witness,
) -> Result<(), AllocError>
    ensures { OnOk result (text.new.items ≡ text.old.items ++ words.now ++ place traces.now at) }
{
    write_bytes(text, words, label(traces, at.number))?;
    write_number(text, ":", at.line)
}

/// Writes a state, behind these words.
#[inline(always)]
fn write_state(text: &mut Vec<u8>, words: &str, state: State) -> Result<(), AllocError>
    ensures { OnOk result (text.new.items ≡ text.old.items ++ words.now ++ state_name state) }
{
    let name = match state {
        State::Hard => "hard",
        State::Soft => "soft",
    };
    write_bytes(text, words, name.as_bytes())
}

/// Writes a class with its usage characters, behind these words.
#[inline(always)]
fn write_class(
    text: &mut Vec<u8>,
    words: &str,
    class: ClassName<'_>,
    marks: &[u8],
) -> Result<(), AllocError>
    ensures { OnOk result (text.new.items ≡ text.old.items ++ words.now ++
        marked (plain_class class.entry) marks.now) }
{
    write_name(text, words, class)?;
    write_bytes(text, " {", marks)?;
    text.push(b'}')?;
    Ok(())
}

/// Writes the names of a walk, and ends the line.
fn write_walk(text: &mut Vec<u8>, walk: &WalkNames<'_, '_>) -> Result<(), AllocError>
    ensures { OnOk result (text.new.items ≡ text.old.items ++ via walk.now) }
{
    write_bytes(text, " via ", b"")?;
    if walk.len() > 0 {
        write_name(text, "", walk.name(0))?;
        write_steps(text, walk)?;
    }
    text.push(b'\n')?;
    Ok(())
}

/// Writes the names of a walk behind the first, each behind an arrow.
fn write_steps(text: &mut Vec<u8>, walk: &WalkNames<'_, '_>) -> Result<(), AllocError>
    ensures { OnOk result (text.new.items ≡ text.old.items ++ steps (drop 1 walk.now)) }
{
    for place in 1..walk.len() {
        write_name(text, " -> ", walk.name(place))?;
    }
    Ok(())
}
