//! Where and when an event was recorded: the columns of a line in front of the event.
ghost use Rattle.std.specs.Prelude.{◌≡◌, ◌++◌, ◌≤◌, OnOk, length};
ghost use Rattle.ld_printed.specs.Printed.{columns, handlers_column, irqs_column, place_text, shown_name, task_text, time_text, zeroed};

use crate::words::{write_number, write_signed, write_words};
use ld_kernel::{Context, Place};
use std::alloc::AllocError;
use std::io::Write;

/// What the times of a recording count.
#[derive(Clone, Copy, Debug, PartialEq, Eq)]
pub enum Clock {
    /// Events, or other steps.
    Steps,
    Nanoseconds,
}

/// How many columns the name of a task has.
const NAME_WIDTH: usize = 16;

/// As many blanks.
const BLANKS: &str = "                ";

/// Which interrupts are disabled.
fn irqs_column(context: Context) -> &'static str
    ensures { result.now ≡ irqs_column context }
{
    match (context.hard_off, context.soft_off) {
        (true, true) => "D",
        (true, false) => "d",
        (false, true) => "b",
        (false, false) => ".",
    }
}

/// Which handlers run.
fn handlers_column(context: Context) -> &'static str
    ensures { result.now ≡ handlers_column context }
{
    if context.in_nmi {
        return if context.in_hard { "Z" } else { "z" };
    }
    match (context.in_hard, context.in_soft) {
        (true, true) => "H",
        (true, false) => "h",
        (false, true) => "s",
        (false, false) => ".",
    }
}

/// Writes what runs and which interrupts are disabled.
fn write_columns(out: &mut Vec<u8>, context: Context) -> Result<(), AllocError>
    ensures { OnOk result (out.new.items ≡ out.old.items ++ columns context) }
{
    write_words(out, irqs_column(context))?;
    write_words(out, ".")?;
    write_words(out, handlers_column(context))?;
    write_words(out, "..")
}

/// As much of a task's name as its columns have room for.
fn shown_name(name: &[u8]) -> &[u8]
    ensures name { result.now ≡ shown_name name.now }
    ensures fits { length result.now ≤ NAME_WIDTH }
{
    if name.len() <= NAME_WIDTH {
        name
    } else {
        &name[..NAME_WIDTH]
    }
}

/// Writes a task: its name, with blanks in front, and its number.
fn write_task(out: &mut Vec<u8>, name: &[u8], task: i32) -> Result<(), AllocError>
    ensures { OnOk result (out.new.items ≡ out.old.items ++ task_text name.now task) }
{
    let shown = shown_name(name);
    out.extend_from_slice(&BLANKS.as_bytes()[shown.len()..])?;
    out.extend_from_slice(shown)?;
    write_signed(out, "-", task)
}

/// Writes a time: of nanoseconds seconds and, rounded, a millionth of them.
fn write_time(out: &mut Vec<u8>, clock: Clock, time: u64) -> Result<(), AllocError>
    ensures { OnOk result (out.new.items ≡ out.old.items ++ time_text clock time) }
{
    match clock {
        Clock::Steps => write_number(out, "", time),
        Clock::Nanoseconds => {
            let micros = time / 1_000 + u64::from(time % 1_000 >= 500);
            let seconds = micros / 1_000_000;
            let rest = micros % 1_000_000;
            write!(out, "{seconds}.{rest:06}").map_err(|_| AllocError)
        }
    }
}

/// Writes the processor.
fn write_processor(out: &mut Vec<u8>, processor: usize) -> Result<(), AllocError>
    ensures { OnOk result (out.new.items ≡ out.old.items ++ zeroed 3 processor) }
{
    write!(out, "{processor:03}").map_err(|_| AllocError)
}

/// Writes where and when an event of a task of this name was recorded.
pub(crate) fn write_place(
    out: &mut Vec<u8>,
    clock: Clock,
    name: &[u8],
    place: &Place,
) -> Result<(), AllocError>
    ensures { OnOk result (out.new.items ≡ out.old.items ++ place_text clock name.now place.now) }
{
    write_task(out, name, place.task)?;
    write_words(out, " [")?;
    write_processor(out, place.processor)?;
    write_words(out, "] ")?;
    write_columns(out, place.context)?;
    write_words(out, " ")?;
    write_time(out, clock, place.time)?;
    write_words(out, ": ")?;
    Ok(())
}
