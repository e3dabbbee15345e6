//! Reads a trace into what a batch keeps.
ghost use Rattle.std.specs.Prelude.{◌≡◌, ◌++◌, ◌+◌, ◌*◌, ◌≤◌, [], IfOk, OnErr, OnOk, All, drop, length, map, take};
ghost use Rattle.ld_trace.specs.Sources.{Fits, plain};
ghost use Rattle.ld_class.specs.declared.names.TheConstants.{MOST_NAMES};
ghost use Rattle.ld_rules.specs.declared.outcome.TheConstants.{MOST_CLASSES};
ghost use Rattle.ld_rules.specs.Outcome.{outcome};
ghost use Rattle.ld_rules.specs.Union.{classes_of};
ghost use Rattle.ld_facts.specs.Inner.Scan.{IsAt, StandsOn, start_of};
ghost use Rattle.ld_facts.specs.Inner.Kept.{AreNames, HasOwn, IsRead, IsReady};
ghost use Rattle.ld_batch.specs.Inner.Names.{with_names};
ghost use Rattle.ld_facts.specs.Inner.Rows.{IsOwnEdge, IsOwnUse, IsOwnWord, edge_of, edges_at, use_of};

use crate::batch_rows::BatchRows;
use crate::reading::read_into;
use crate::scan::Scan;
use ld_rules::Outcome;
use ld_trace::Source;
use std::alloc::AllocError;

/// Reads one more trace on top of what the scan has, and adds what it told first. A refused trace adds
/// nothing. The scan is then ready for the next trace.
///
/// `AllocError` where memory was refused. Nothing has changed then but spare memory.
pub(crate) fn read<'a>(
    scan: &mut Scan<'a>,
    rows: &mut BatchRows<'a>,
    source: Source<'a>,
) -> Result<Outcome, AllocError>
    requires fits { Fits (plain source) }
    requires ready { IsReady scan.old }
    requires begun { IsAt (start_of scan.old) [] scan.old }
    requires room { length scan.old.classes + 2 * MOST_CLASSES ≤ MOST_NAMES }
    requires few { length rows.old.classes + MOST_CLASSES ≤ MOST_NAMES }
    requires names { AreNames scan.old.classes rows.old.numbers rows.old.classes }
    requires edges { length (edges_at rows.old.numbers rows.old.words.items) ≡ length scan.old.locks.edges }
    requires own_words { All (IsOwnWord rows.old.numbers) rows.old.words.items }
    requires usage { length rows.old.usage.items ≡ length scan.old.uses }
    ensures outcome { IfOk result (λ what. what ≡ outcome (plain source.entry)) }
    ensures shows { OnOk result (IsRead scan.old (plain source.entry) scan.new) }
    ensures ready { OnOk result (IsReady scan.new) }
    ensures begun { OnOk result (IsAt (start_of scan.new) [] scan.new) }
    ensures classes { OnOk result
        (rows.new.classes ≡ with_names rows.old.classes (classes_of (plain source.entry))) }
    ensures names { OnOk result (AreNames scan.new.classes rows.new.numbers rows.new.classes) }
    ensures edges { OnOk result (edges_at rows.new.numbers rows.new.words.items
        ≡ edges_at rows.old.numbers rows.old.words.items
        ++ map (edge_of rows.new.numbers source.entry.number)
        (drop (length (edges_at rows.old.numbers rows.old.words.items)) scan.new.locks.edges)) }
    ensures own_words { OnOk result (All (IsOwnWord rows.new.numbers) rows.new.words.items) }
    ensures words { OnOk result (take (length rows.old.words.items) rows.new.words.items ≡ rows.old.words.items) }
    ensures front { OnOk result (take (length rows.old.numbers) rows.new.numbers ≡ rows.old.numbers) }
    ensures usage { OnOk result (rows.new.usage.items ≡ rows.old.usage.items
        ++ map (use_of rows.new.numbers source.entry.number)
        (drop (length rows.old.usage.items) scan.new.uses)) }
    ensures own_edges { OnOk result (All (IsOwnEdge rows.new.numbers)
        (drop (length (edges_at rows.old.numbers rows.old.words.items)) scan.new.locks.edges)) }
    ensures own_uses { OnOk result (All (IsOwnUse rows.new.numbers)
        (drop (length rows.old.usage.items) scan.new.uses)) }
    ensures refused { OnErr result ((scan.new ≡ scan.old)
        × (rows.new.classes ≡ rows.old.classes)
        × (rows.new.numbers ≡ rows.old.numbers)
        × (rows.new.words.items ≡ rows.old.words.items)
        × (rows.new.usage.items ≡ rows.old.usage.items)) }
{
    let outcome = scan_source(scan, source)?;
    if rows.add(scan, source.number).is_err() {
        scan.undo();
        return Err(AllocError);
    }
    scan.begin();
    Ok(outcome)
}

/// Scans one more trace. One that isn't read to its end leaves nothing.
fn scan_source<'a>(scan: &mut Scan<'a>, source: Source<'a>) -> Result<Outcome, AllocError>
    requires fits { Fits (plain source) }
    requires ready { IsReady scan.old }
    requires begun { IsAt (start_of scan.old) [] scan.old }
    ensures outcome { IfOk result (λ what. what ≡ outcome (plain source.entry)) }
    ensures shows { OnOk result (IsRead scan.old (plain source.entry) scan.new) }
    ensures own { OnOk result (HasOwn scan.old (plain source.entry) scan.new) }
    ensures first { OnOk result (StandsOn scan.old scan.new) }
    ensures refused { OnErr result (scan.new ≡ scan.old) }
{
    match read_into(scan, source) {
        Ok(Outcome::Read { events }) => Ok(Outcome::Read { events }),
        Ok(Outcome::Refused { line, fault }) => {
            scan.undo();
            Ok(Outcome::Refused { line, fault })
        }
        Err(refusal) => {
            scan.undo();
            Err(refusal)
        }
    }
}
