//! The check of a stream, its report, and a whole run: what a program does with a stream, from its bytes to
//! the text of the report.
#![tactic(auto)]

mod checked;
mod reading;
mod running;

pub use checked::{CheckFault, Checked, MOST_WORKERS, Report, check, report_of};
pub use ld_report::{Book, Verdict, report as report_in, verdict_of};
pub use ld_work::NoGate;
pub use running::{RunFault, run};
