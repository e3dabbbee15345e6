//! The conflicts: classes that handlers acquire and that are held where these can interrupt.
ghost use Rattle.std.specs.Prelude.{◌≡◌, ◌<◌, IfOk, List, MatchOption, length, map};
ghost use Rattle.ld_trace.specs.Sources.{PlainSource};
ghost use Rattle.ld_rules.specs.Union.{use_witness};
ghost use Rattle.ld_union.specs.Findings.{AreConflictRows, plain_conflict_row};
ghost use Rattle.ld_union.specs.Inner.ByName.{class_name};
ghost use Rattle.ld_union.specs.Inner.Rows.{AreConflictRowsOf, IsConflictRowOf};
ghost use Rattle.ld_union.specs.Inner.Union.{Shows};
ghost use Rattle.ld_union.specs.Violations.{IsConflict};

use crate::alarms::{in_bit, on_bit};
use crate::findings::used::noted;
use crate::findings::walks::Indexed;
use crate::union::Union;
use ld_class::ClassName;
use ld_rules::Witness;
use ld_trace::State;
use std::alloc::{AllocError, Global};

/// A class that handlers of the state acquire (IN), and that is held where they can interrupt (ON).
#[derive(Clone, Copy, Debug, PartialEq, Eq)]
pub struct ConflictRow<'a> {
    /// The state whose two usage bits the class has.
    pub state: State,
    /// The name of the class.
    pub class: ClassName<'a>,
    /// The usage characters of the class.
    pub marks: [u8; 4],
    /// Where its IN bit was first seen: a handler acquired it, and not by a trylock.
    pub safe_at: Witness,
    /// Where its ON bit was first seen: it was held while a handler could interrupt.
    pub unsafe_at: Witness,
}

/// The conflicts, by state, then by the name of the class.
pub(crate) fn conflict_rows<'a>(
    alloc: Global,
    indexed: Indexed<'_, '_, 'a>,
) -> Result<Vec<ConflictRow<'a>>, AllocError>
    ensures { IfOk result (λ rows. (sources : List PlainSource)
        → Shows sources indexed.entry.union.now
        → AreConflictRows sources (map plain_conflict_row rows.items)) }
{
    let mut rows = conflicts_of(alloc, indexed, State::Hard)?;
    let mut soft = conflicts_of(alloc, indexed, State::Soft)?;
    rows.append(&mut soft)?;
    Ok(rows)
}

/// The conflicts of a state, by the name of the class.
fn conflicts_of<'a>(
    alloc: Global,
    indexed: Indexed<'_, '_, 'a>,
    state: State,
) -> Result<Vec<ConflictRow<'a>>, AllocError>
    ensures { IfOk result (λ rows. (sources : List PlainSource)
        → Shows sources indexed.entry.union.now
        → AreConflictRowsOf sources (λ p. p.0 ≡ state) (map plain_conflict_row rows.items)) }
{
    let mut rows = Vec::new(alloc);
    for class in &indexed.order.numbers {
        if let Some(row) = conflict_row(indexed.union, *class, state) {
            rows.push(row)?;
        }
    }
    Ok(rows)
}

/// The row of the class, or `None` where it has no conflict of the state.
fn conflict_row<'a>(union: &Union<'a>, class: u32, state: State) -> Option<ConflictRow<'a>>
    requires class { class < length union.now.classes }
    ensures { (sources : List PlainSource)
        → Shows sources union.now
        → MatchOption result (¬ IsConflict sources state (class_name union.now.classes class))
        (λ row. IsConflictRowOf sources state (class_name union.now.classes class)
        (plain_conflict_row row)) }
{
    let acquired = noted(union, class, in_bit(state))?;
    let held = noted(union, class, on_bit(state))?;
    Some(ConflictRow {
        state,
        class: acquired.name,
        marks: acquired.marks,
        safe_at: acquired.at,
        unsafe_at: held.at,
    })
}
