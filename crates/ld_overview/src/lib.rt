//! Every class and every dependency of a book, in the order of a report; and the classes that recursive readers of a
//! lock wait for.
#![tactic(auto)]

mod names;
mod overview;
mod readers;

pub use ld_book::{
    Book, ClassName, ConflictRow, CycleRow, Edge, Findings, ForbiddenRow, ForbiddenRows, Totals,
    Traces, UsageRow, WalkNames, Witness,
};
pub use names::write_class;
pub use overview::{ClassRow, DependencyRow, Overview, class_rows, dependency_rows};
pub use readers::{has_readers, lock_of_readers, sort_by_locks, write_held, write_waited};
