//! The kinds of events whose formats are known.
ghost use Rattle.std.specs.Prelude.{◌≡◌, map, IfOk, Some};
ghost use Rattle.ld_layout.specs.Fields.{plain};
ghost use Rattle.ld_kernel.specs.Fields.{AreFields, HasHead, number_named};

use crate::fields::{AcquireFields, FieldFault, ReleaseFields, StockAcquireFields, number};
use crate::number::{Number, Width};
use crate::steps::{StepBeginFields, StepEndFields};
use ld_layout::Format;

/// An event by its name in tracefs.
#[derive(Clone, Copy, Debug, PartialEq, Eq)]
pub enum Sort {
    /// `lockcheck/acquire`, of the recorder's module.
    Acquire,
    /// `lockcheck/release`, of the module.
    Release,
    /// `lock/lock_acquire`.
    StockAcquire,
    /// `lock/lock_release`.
    StockRelease,
    /// `preemptirq/irq_enable`.
    IrqEnable,
    /// `preemptirq/irq_disable`.
    IrqDisable,
    /// `cpuhp/cpuhp_enter`.
    StepBegin,
    /// `cpuhp/cpuhp_exit`.
    StepEnd,
}

/// Where the fields of an event stand.
#[derive(Clone, Copy, Debug, PartialEq, Eq)]
pub enum Fields {
    Acquire(AcquireFields),
    Release(ReleaseFields),
    StockAcquire(StockAcquireFields),
    StockRelease(ReleaseFields),
    IrqEnable,
    IrqDisable,
    StepBegin(StepBeginFields),
    StepEnd(StepEndFields),
}

/// A kind of events.
#[derive(Clone, Copy, Debug, PartialEq, Eq)]
pub struct Kind {
    /// The number that each event of this kind begins with.
    pub id: u32,
    pub fields: Fields,
}

/// Whether a format begins as all do: with the event's number, flags, and the number of its task.
fn check_head(format: &Format<'_>) -> Result<(), FieldFault>
    ensures { IfOk result (λ _. HasHead (map plain format.now.fields.items)) }
{
    check_at(format, "common_type", 0, Width::Two)?;
    check_at(format, "common_flags", 2, Width::One)?;
    check_at(format, "common_pid", 4, Width::Four)
}

/// Whether this number stands there.
fn check_at(
    format: &Format<'_>,
    name: &'static str,
    at: u32,
    width: Width,
) -> Result<(), FieldFault>
    ensures { IfOk result (λ _. number_named name.entry.now (map plain format.now.fields.items) ≡ Some (record { at = at; width = width })) }
{
    let number = number(format, name)?;
    if number == (Number { at, width }) {
        Ok(())
    } else {
        Err(FieldFault { name })
    }
}

/// The fields that a format has for its event.
fn fields_of(sort: Sort, format: &Format<'_>) -> Result<Fields, FieldFault>
    ensures { IfOk result (λ fields. AreFields sort (map plain format.now.fields.items) fields) }
{
    match sort {
        Sort::Acquire => Ok(Fields::Acquire(AcquireFields::of(format)?)),
        Sort::Release => Ok(Fields::Release(ReleaseFields::of(format)?)),
        Sort::StockAcquire => Ok(Fields::StockAcquire(StockAcquireFields::of(format)?)),
        Sort::StockRelease => Ok(Fields::StockRelease(ReleaseFields::of_stock(format)?)),
        Sort::IrqEnable => Ok(Fields::IrqEnable),
        Sort::IrqDisable => Ok(Fields::IrqDisable),
        Sort::StepBegin => Ok(Fields::StepBegin(StepBeginFields::of(format)?)),
        Sort::StepEnd => Ok(Fields::StepEnd(StepEndFields::of(format)?)),
    }
}

impl Kind {
    /// The kind of this event, which has this format.
    ///
    /// # Errors
    ///
    /// The first field that the format lacks.
    pub fn of(sort: Sort, format: &Format<'_>) -> Result<Kind, FieldFault>
        ensures id { IfOk result (λ kind. kind.id ≡ format.now.id) }
        ensures head { IfOk result (λ _. HasHead (map plain format.now.fields.items)) }
        ensures fields { IfOk result (λ kind. AreFields sort (map plain format.now.fields.items) kind.fields) }
    {
        check_head(format)?;
        let fields = fields_of(sort, format)?;
        Ok(Kind {
            id: format.id,
            fields,
        })
    }
}
