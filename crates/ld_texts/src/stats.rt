//! Figures of traces, events, classes, dependencies and violations, one a line.
ghost use Rattle.std.specs.Prelude.{◌≡◌, ◌++◌, ◌<◌, ◌==◌, ℕ, IfOk, List, None, OnOk, codes, decimal, filter, length, map, not, slice_index_or};
ghost use Rattle.std.specs.Option.{is_some};
ghost use Rattle.ld_rules.specs.Outcome.{name_of};
ghost use Rattle.ld_texts.specs.declared.shape.SizeCount.{SizeCount};
ghost use Rattle.ld_texts.specs.Stats.{IsStats, figure_line, figure_lines, is_refused_for, of_classes, of_components, of_events, of_dependencies, of_traces};

use crate::shape::{SizeCount, by_size, cyclic_sizes};
use crate::violations::write_violations;
use crate::writing::{write_figure, write_figures, write_prefixed};
use ld_class::Classes;
use ld_counts::{Counted, Verbs};
use ld_overview::{Book, UsageRow};
use ld_places::Places;
use ld_rules::{Listed, Outcome, TraceFault};
use std::alloc::{AllocError, Global};
use std::io::Write;
use std::thread::Threads;

/// Every fault of a trace, in the order of `TraceFault`.
const FAULTS: [TraceFault; 14] = [
    TraceFault::BadVerb,
    TraceFault::BadCount,
    TraceFault::BadName,
    TraceFault::BadState,
    TraceFault::TooManyTasks,
    TraceFault::TooManyClasses,
    TraceFault::TooDeep,
    TraceFault::NotHeld,
    TraceFault::BadNest,
    TraceFault::Masked,
    TraceFault::BadExit,
    TraceFault::HeldAtExit,
    TraceFault::BadEnable,
    TraceFault::LateBegin,
];

/// The figures of a book of a stream whose lines stand at these places. That many threads read its traces at once.
pub(crate) fn stats_text<R: Threads + Sync>(
    rt: &R,
    alloc: Global,
    book: &Book<'_>,
    places: &Places<'_>,
    threads: usize,
) -> Result<Vec<u8>, AllocError>
    ensures { IfOk result (λ text. IsStats book.now (length places.now) text.items) }
{
    let counted = Counted::of(rt, alloc, book.classes(), book.listed(), threads)?;
    let mut text = Vec::new(alloc);
    write_figure(&mut text, "files", places.count())?;
    write_traces(&mut text, book)?;
    write_events(&mut text, book, &counted.verbs)?;
    write_classes(&mut text, book)?;
    write_dependencies(&mut text, book, counted.chain_count(), counted.depth)?;
    write_components(alloc, &mut text, book)?;
    write_violations(alloc, &mut text, book)?;
    Ok(text)
}

/// Writes how many traces there are, and how many are rejected for each fault.
fn write_traces(text: &mut Vec<u8>, book: &Book<'_>) -> Result<(), AllocError>
    ensures { OnOk result (text.new.items ≡ text.old.items ++ figure_lines (of_traces book.now)) }
{
    let totals = book.totals();
    write_figure(text, "traces", totals.traces)?;
    write_figure(text, "refused", totals.refused)?;
    write_refused(text, book.listed(), &FAULTS)
}

/// Writes how many traces are rejected for each of these faults.
fn write_refused(
    text: &mut Vec<u8>,
    listed: &[Listed<'_>],
    faults: &[TraceFault],
) -> Result<(), AllocError>
    ensures { OnOk result (text.new.items ≡ text.old.items ++ figure_lines (map (λ fault.
        (codes "refused-" ++ name_of fault, length (filter (λ trace. is_refused_for (name_of fault) trace.outcome) listed.now)))
        faults.now)) }
{
    for fault in faults {
        let name = fault.name();
        write_prefixed(text, "refused-", name, refused_for(listed, name))?;
    }
    Ok(())
}

/// How many traces are rejected for the fault of this name.
fn refused_for(listed: &[Listed<'_>], name: &str) -> u64
    ensures { result ≡ length (filter (λ trace. is_refused_for name.now trace.outcome) listed.now) }
{
    listed
        .iter()
        .filter(|trace| is_refused_for(trace.outcome, name))
        .count() as u64
}

/// Whether a trace is rejected for the fault of this name.
fn is_refused_for(outcome: Outcome, name: &str) -> bool
    ensures { result ≡ is_refused_for name.now outcome }
{
    match outcome {
        Outcome::Read { .. } => false,
        Outcome::Refused { fault, .. } => fault.name() == name,
    }
}

/// Writes how many events the accepted traces have, and how many of each verb.
fn write_events(text: &mut Vec<u8>, book: &Book<'_>, verbs: &Verbs) -> Result<(), AllocError>
    ensures { OnOk result (text.new.items ≡ text.old.items ++ figure_lines (of_events book.now verbs.now)) }
{
    write_figures(
        text,
        &[
            ("events", book.totals().events),
            ("events-acquire", verbs.acquire),
            ("events-nested", verbs.nested),
            ("events-try", verbs.tries),
            ("events-release", verbs.release),
            ("events-enter", verbs.enter),
            ("events-exit", verbs.exit),
            ("events-enable", verbs.enable),
            ("events-disable", verbs.disable),
            ("events-begin", verbs.begin),
        ],
    )
}

/// Writes how many classes there are, how many of them are subclasses, and how many have each usage bit.
fn write_classes(text: &mut Vec<u8>, book: &Book<'_>) -> Result<(), AllocError>
    ensures { OnOk result (text.new.items ≡ text.old.items ++ figure_lines (of_classes book.now)) }
{
    let classes = book.classes();
    let usage = book.usage_rows();
    write_figures(
        text,
        &[
            ("classes", classes.len() as u64),
            ("subclasses", subclasses(classes)),
            ("classes-in-hard", classes_with(usage, 0)),
            ("classes-on-hard", classes_with(usage, 1)),
            ("classes-in-soft", classes_with(usage, 2)),
            ("classes-on-soft", classes_with(usage, 3)),
        ],
    )
}

/// How many of these are subclasses.
fn subclasses(classes: &Classes<'_>) -> u64
    ensures { result ≡ length (filter (λ class. not (class.sub == 0)) classes.now) }
{
    let mut count = 0;
    for number in 0..classes.len() as u32 {
        if classes.name(number).sub != 0 {
            count += 1;
        }
    }
    count
}

/// How many rows have the usage bit at this place of a row.
fn classes_with(rows: &[UsageRow], bit: usize) -> u64
    requires { bit < 4 }
    ensures { result ≡ length (filter (λ row. is_some (slice_index_or row.first bit None)) rows.now) }
{
    rows.iter().filter(|row| row.first[bit].is_some()).count() as u64
}

/// Writes how many dependencies and chains there are, and how many locks a task holds at most.
fn write_dependencies(
    text: &mut Vec<u8>,
    book: &Book<'_>,
    chains: u64,
    depth: u64,
) -> Result<(), AllocError>
    ensures { OnOk result (text.new.items ≡ text.old.items ++ figure_lines (of_dependencies book.now chains depth)) }
{
    write_figures(
        text,
        &[
            ("dependencies", book.totals().dependencies),
            ("chains", chains),
            ("depth", depth),
        ],
    )
}

/// Writes how many cyclic components there are, and how many of each number of classes.
fn write_components(alloc: Global, text: &mut Vec<u8>, book: &Book<'_>) -> Result<(), AllocError>
    ensures { OnOk result ((cyclic : ℕ) × ((parts : List SizeCount) ×
        (text.new.items ≡ text.old.items ++ figure_lines (of_components cyclic parts)))) }
{
    let sizes = cyclic_sizes(alloc, book)?;
    let parts = by_size(alloc, &sizes)?;
    write_by_size(text, sizes.len() as u64, &parts)
}

/// Writes how many cyclic components there are, and how many of each of these sizes.
fn write_by_size(text: &mut Vec<u8>, cyclic: u64, parts: &[SizeCount]) -> Result<(), AllocError>
    ensures { OnOk result (text.new.items ≡ text.old.items ++ figure_lines (of_components cyclic parts.now)) }
{
    write_figure(text, "cyclic-components", cyclic)?;
    write_sizes(text, "cyclic-components-of-", parts)
}

/// Writes a line for each size: the prefix and the size, then how many there are.
fn write_sizes(text: &mut Vec<u8>, prefix: &str, parts: &[SizeCount]) -> Result<(), AllocError>
    ensures { OnOk result (text.new.items ≡ text.old.items
        ++ figure_lines (map (λ part. (prefix.now ++ decimal part.classes, part.count)) parts.now)) }
{
    for part in parts {
        write_size(text, prefix, part.classes, part.count)?;
    }
    Ok(())
}

/// Writes the line of one size.
fn write_size(text: &mut Vec<u8>, prefix: &str, size: u32, count: u64) -> Result<(), AllocError>
    ensures { OnOk result (text.new.items ≡ text.old.items ++ figure_line (prefix.now ++ decimal size, count)) }
{
    writeln!(text, "{prefix}{size} {count}").map_err(|_| AllocError)
}
