//! A kernel's events of locks, out of the bytes that its ring holds.
#![tactic(auto)]

mod decode;
mod event;
mod fields;
mod kind;
mod located;
mod number;
mod steps;
mod wrong;

pub use decode::event_of;
pub use event::{
    Acquire, Context, Event, Mode, Place, Release, StepBegin, StepEnd, StockAcquire, What,
};
pub use fields::{AcquireFields, FieldFault, ReleaseFields, StockAcquireFields};
pub use kind::{Fields, Kind, Sort};
pub use number::{Number, Width};
pub use steps::{StepBeginFields, StepEndFields};
pub use wrong::Wrong;
