//! Lines of the text.
ghost use Rattle.std.specs.Prelude.{◌≡◌, ◌++◌, OnOk};
ghost use Rattle.ld_kernel.specs.Events.{plain_event};
ghost use Rattle.ld_printed.specs.Printed.{count_text, event_line, lost_line};

use crate::event::write_what;
use crate::place::{Clock, write_place};
use crate::words::{write_number, write_words};
use ld_kernel::Event;
use std::alloc::AllocError;
use std::io::Write;

/// Writes the line of an event of a task of this name.
///
/// # Errors
///
/// A growth of memory was refused.
pub fn write_event(
    out: &mut Vec<u8>,
    clock: Clock,
    name: &[u8],
    event: &Event<'_>,
) -> Result<(), AllocError>
    ensures { OnOk result (out.new.items ≡ out.old.items ++ event_line clock name.now (plain_event event.now)) }
{
    write_place(out, clock, name, &event.place)?;
    write_what(out, &event.what)?;
    write_words(out, "\n")?;
    Ok(())
}

/// Writes the line that tells of events that the kernel lost, and how many, if that is known.
///
/// # Errors
///
/// A growth of memory was refused.
pub fn write_lost(out: &mut Vec<u8>, processor: usize, count: Option<u64>) -> Result<(), AllocError>
    ensures { OnOk result (out.new.items ≡ out.old.items ++ lost_line processor count) }
{
    write_number(out, "CPU:", processor as u64)?;
    write_words(out, " [LOST ")?;
    write_count(out, count)?;
    write_words(out, "EVENTS]\n")?;
    Ok(())
}

/// Writes how many they are, if that is known.
fn write_count(out: &mut Vec<u8>, count: Option<u64>) -> Result<(), AllocError>
    ensures { OnOk result (out.new.items ≡ out.old.items ++ count_text count) }
{
    match count {
        Some(count) => write!(out, "{count} ").map_err(|_| AllocError),
        None => Ok(()),
    }
}
