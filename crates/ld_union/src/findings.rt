//! Every violation, in the order of the report.
ghost use Rattle.std.specs.Prelude.{◌≡◌, IfOk, List};
ghost use Rattle.ld_trace.specs.Sources.{PlainSource};
ghost use Rattle.ld_rules.specs.Union.{dependency_witness, use_witness};
ghost use Rattle.ld_union.specs.Findings.{AreByState, AreFindings, plain_findings};
ghost use Rattle.ld_union.specs.Inner.Rows.{IsOfEach};
ghost use Rattle.ld_union.specs.Inner.Union.{Shows};

mod conflicts;
mod cycles;
mod forbidden;
mod forbidden_rows;
mod used;
mod walks;

use crate::alarms::Found;
use crate::by_name::ByName;
use crate::findings::conflicts::conflict_rows;
use crate::findings::cycles::cycle_rows;
use crate::findings::forbidden::forbidden_rows;
use crate::findings::walks::Indexed;
use crate::reaches::PerState;
use crate::union::Union;
pub use conflicts::ConflictRow;
pub use cycles::CycleRow;
pub use forbidden_rows::{ForbiddenRow, ForbiddenRows};
use ld_trace::State;
use std::alloc::{AllocError, Global};
use std::marker::Model;

/// Every violation that some traces show, in the order of the report.
#[derive(Drop)]
pub struct Findings<'u, 'a> {
    /// The dependencies on cycles, by the names of their classes.
    pub cycles: Rows<CycleRow<'u, 'a>>,
    /// The conflicts, hard first, then by the name of the class.
    pub conflicts: Rows<ConflictRow<'a>>,
    /// The forbidden walks of each state, by the names of their ends.
    pub forbidden: PerState<ForbiddenRows<'u, 'a>>,
}

/// Every violation of a union of which one of each kind was found, if it has one. Where no cycle or
/// no forbidden walk of a state was found, none is searched for.
///
/// # Errors
///
/// `AllocError` where a growth of memory was refused.
pub fn findings_of<'u, 'a>(
    alloc: Global,
    union: &'u Union<'a>,
    found: &Found,
) -> Result<Findings<'u, 'a>, AllocError>
    ensures rows { IfOk result (λ findings. (sources : List PlainSource)
        → Shows sources union.now
        → IsOfEach sources found.now
        → AreFindings sources (plain_findings findings)) }
    ensures states { IfOk result (λ findings. AreByState findings.forbidden) }
{
    if found.is_nothing() {
        return Ok(Findings {
            cycles: Rows::from(Vec::new(alloc)),
            conflicts: Rows::from(Vec::new(alloc)),
            forbidden: PerState {
                hard: ForbiddenRows::none(alloc, union, State::Hard),
                soft: ForbiddenRows::none(alloc, union, State::Soft),
            },
        });
    }
    let order = ByName::new(alloc, union.classes())?;
    let indexed = Indexed {
        union,
        order: &order,
    };
    let cycles = cycle_rows(alloc, indexed, found)?;
    let conflicts = conflict_rows(alloc, indexed)?;
    let forbidden = forbidden_rows(alloc, indexed, found)?;
    Ok(Findings {
        cycles: Rows::from(cycles),
        conflicts: Rows::from(conflicts),
        forbidden,
    })
}

/// Some rows, seen as the list of them. It is made from a `Vec` without taking memory.
#[derive(Drop)]
pub struct Rows<T> {
    rows: Vec<T>,
}

impl<T> Model for Rows<T> {
    ghost use Rattle.std.specs.Prelude.{List};

    ghost Value = { List T };

    ghost view = { λ r. r.rows.items };
}

impl<T> Rows<T> {
    /// The rows, in order. Takes no memory.
    pub fn items(&self) -> &[T]
        ensures { result.now ≡ self.now }
    {
        &self.rows
    }

    /// The rows as the `Vec` that they are kept in. Takes no memory.
    pub fn into_vec(self) -> Vec<T>
        ensures { result.items ≡ self }
    {
        self.rows
    }
}

impl<T> From<Vec<T>> for Rows<T> {
    ghost from_gives = { λ rows made. made ≡ rows.items };

    fn from(rows: Vec<T>) -> Rows<T> {
        Rows { rows }
    }
}
