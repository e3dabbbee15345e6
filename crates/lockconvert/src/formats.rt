//! What the kernel's texts say of pages and events.
ghost use Rattle.std.specs.Prelude.{◌≡◌, true, IfOk};
ghost use Rattle.ld_pages.specs.Layouts.{is_layout};

use crate::fault::{Fault, fault_of_text};
use crate::names::cut;
use crate::parts::{Known, Parts};
use ld_kernel::Kind;
use ld_layout::{ReadError, format_of, header_page};
use ld_pages::Layout;
use ld_printed::Clock;
use std::alloc::{AllocError, Global};

/// Where the parts of the pages stand.
///
/// # Errors
///
/// The text of `header_page` is no kernel's.
pub fn layout_of(alloc: Global, parts: &Parts<'_>) -> Result<Layout, Fault>
    ensures { IfOk result (λ layout. is_layout layout ≡ true) }
{
    match header_page(alloc, parts.header_page) {
        Ok(layout) => Ok(layout),
        Err(ReadError::Memory) => Err(Fault::Memory),
        Err(ReadError::Fault(fault)) => {
            let name = parts.holder.part(alloc, "events/header_page")?;
            Err(fault_of_text(name, fault))
        }
    }
}

/// The name of the format of an event.
fn name_of(alloc: Global, parts: &Parts<'_>, event: Known) -> Result<String, AllocError> {
    let file = event.file(alloc)?;
    parts.holder.part(alloc, file.as_str())
}

/// The kind of an event, by its format.
fn kind_of(alloc: Global, parts: &Parts<'_>, event: Known, text: &[u8]) -> Result<Kind, Fault> {
    let format = match format_of(alloc, text) {
        Ok(format) => format,
        Err(ReadError::Memory) => return Err(Fault::Memory),
        Err(ReadError::Fault(fault)) => {
            return Err(fault_of_text(name_of(alloc, parts, event)?, fault));
        }
    };
    match Kind::of(event.sort, &format) {
        Ok(kind) => Ok(kind),
        Err(fault) => Err(Fault::Field(name_of(alloc, parts, event)?, fault.name)),
    }
}

/// The kinds whose formats the recording has.
///
/// # Errors
///
/// A format is no kernel's.
pub fn kinds_of(alloc: Global, parts: &Parts<'_>) -> Result<Vec<Kind>, Fault> {
    let mut kinds = Vec::new(alloc);
    for (event, text) in &parts.formats {
        let kind = kind_of(alloc, parts, *event, *text)?;
        kinds.push(kind).map_err(AllocError::from)?;
    }
    Ok(kinds)
}

/// The name in the brackets of a text, or all of a text without them.
fn chosen(text: &[u8]) -> Option<&[u8]> {
    let Some((_, rest)) = cut(text, b'[') else {
        return Some(text);
    };
    let (name, _) = cut(rest, b']')?;
    Some(name)
}

/// The clock that a text names.
fn clock_named(text: &[u8]) -> Option<Clock> {
    match chosen(text)? {
        b"counter" | b"uptime" | b"x86-tsc" => Some(Clock::Steps),
        b"local" | b"global" | b"perf" | b"mono" | b"mono_raw" | b"boot" | b"tai" => {
            Some(Clock::Nanoseconds)
        }
        _ => None,
    }
}

/// What the times of the recording count.
///
/// # Errors
///
/// The text of `trace_clock` names no clock that is known.
pub fn clock_of(alloc: Global, parts: &Parts<'_>) -> Result<Clock, Fault> {
    match clock_named(parts.clock) {
        Some(clock) => Ok(clock),
        None => Err(Fault::Text(
            parts.holder.part(alloc, "trace_clock")?,
            "names no clock that is known",
        )),
    }
}
