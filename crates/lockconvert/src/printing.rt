//! The text of a recording.
ghost use Rattle.std.specs.Prelude.{◌≡◌, true, OnOk};
ghost use Rattle.ld_merge.specs.Merge.{GrowsByMerge};
ghost use Rattle.ld_pages.specs.Layouts.{is_layout};

use crate::entries::Entries;
use crate::fault::{Fault, words_of_event, words_of_page};
use crate::formats::{clock_of, kinds_of, layout_of};
use crate::names::Names;
use crate::parts::Parts;
use ld_kernel::{Kind, event_of};
use ld_merge::{Entry, MergeFault, merge};
use ld_pages::{Event, Events, Item, Layout};
use ld_printed::{Clock, write_event, write_lost};
use ld_trace_dat::Processor;
use std::alloc::{AllocError, Global};
use std::io::Write;

/// How many bytes of text are written at once, or more.
const BLOCK: usize = 1 << 20;

/// What the text begins with.
const HEADER: &[u8] = b"# tracer: nop\n#\n";

/// What events are read by.
#[derive(Drop)]
struct Reading<'a> {
    layout: Layout,
    processors: &'a [Processor<'a>],
    kinds: Vec<Kind>,
    names: Names<'a>,
    clock: Clock,
}

/// What is wrong at an offset of a processor's pages.
fn fault_at(layout: Layout, processor: usize, offset: usize, words: &'static str) -> Fault {
    if layout.size == 0 {
        return Fault::Pages(processor, 0, offset, words);
    }
    Fault::Pages(processor, offset / layout.size, offset % layout.size, words)
}

/// The pages of each processor, of which nothing was read yet.
fn sources_of<'a>(
    alloc: Global,
    layout: Layout,
    processors: &[Processor<'a>],
) -> Result<Vec<Events<'a>>, AllocError>
    requires { is_layout layout ≡ true }
{
    let mut sources = Vec::new(alloc);
    for processor in processors {
        sources.push(Events::new(layout, processor.pages))?;
    }
    Ok(sources)
}

/// Adds the items of all processors to the entries, merged.
///
/// # Errors
///
/// The fault of the first page that can't be read, or memory was refused.
fn add_merged(
    alloc: Global,
    layout: Layout,
    sources: &[Events<'_>],
    entries: &mut Entries,
) -> Result<(), Fault>
    ensures { OnOk result (GrowsByMerge sources.now entries.old.items.items entries.new.items.items) }
{
    match merge(alloc, sources, entries) {
        Ok(_) => Ok(()),
        Err(MergeFault::Pages(processor, fault)) => Err(fault_at(
            layout,
            processor,
            fault.offset,
            words_of_page(fault.wrong),
        )),
        Err(MergeFault::Refused | MergeFault::Memory) => Err(Fault::Memory),
        Err(MergeFault::Many) => Err(Fault::Many),
    }
}

/// The number of the processor at a place of the list; the place where the list has none.
fn number_of(processors: &[Processor<'_>], place: usize) -> usize {
    match processors.get(place) {
        Some(processor) => processor.number,
        None => place,
    }
}

/// A fault of pages with the number of its processor in the place of its place.
fn numbered(fault: Fault, processors: &[Processor<'_>]) -> Fault {
    match fault {
        Fault::Pages(place, page, offset, words) => {
            Fault::Pages(number_of(processors, place), page, offset, words)
        }
        other => other,
    }
}

/// The items of all processors, merged. Each entry has the place of its processor in the list.
///
/// # Errors
///
/// Those of `add_merged`.
fn merged(alloc: Global, layout: Layout, processors: &[Processor<'_>]) -> Result<Entries, Fault>
    requires { is_layout layout ≡ true }
{
    let sources = sources_of(alloc, layout, processors)?;
    let mut entries = Entries {
        items: Vec::new(alloc),
    };
    match add_merged(alloc, layout, &sources, &mut entries) {
        Ok(()) => Ok(entries),
        Err(fault) => Err(numbered(fault, processors)),
    }
}

/// The data of an event of the processor at a place of the list.
fn data_of<'a>(processors: &[Processor<'a>], place: usize, event: &Event) -> &'a [u8] {
    let Some(processor) = processors.get(place) else {
        return &[];
    };
    match processor.pages.get(event.at..) {
        Some(rest) => match rest.get(..event.size) {
            Some(data) => data,
            None => &[],
        },
        None => &[],
    }
}

/// Writes the line of an entry.
///
/// # Errors
///
/// What is wrong with the event, or memory was refused.
fn write_entry(out: &mut Vec<u8>, reading: &Reading<'_>, entry: &Entry) -> Result<(), Fault> {
    let number = number_of(reading.processors, entry.processor);
    match entry.item {
        Item::Lost(lost) => {
            write_lost(out, number, lost.count)?;
            Ok(())
        }
        Item::Event(event) => {
            let data = data_of(reading.processors, entry.processor, &event);
            match event_of(&reading.kinds, number, event.time, data) {
                Ok(told) => {
                    let name = reading.names.name(told.place.task);
                    write_event(out, reading.clock, name, &told)?;
                    Ok(())
                }
                Err(wrong) => Err(fault_at(
                    reading.layout,
                    number,
                    event.at,
                    words_of_event(wrong),
                )),
            }
        }
    }
}

/// Writes the lines of the entries to the output, and flushes it.
///
/// # Errors
///
/// What is wrong with an event, a write failed, or memory was refused. The lines up to there may be written.
fn write_entries<W: Write>(
    alloc: Global,
    output: &mut W,
    reading: &Reading<'_>,
    entries: &[Entry],
) -> Result<(), Fault> {
    let mut text = Vec::new(alloc);
    text.extend_from_slice(HEADER)?;
    for entry in entries {
        write_entry(&mut text, reading, entry)?;
        if text.len() >= BLOCK {
            output.write_all(&text).map_err(Fault::Write)?;
            text.clear();
        }
    }
    output.write_all(&text).map_err(Fault::Write)?;
    output.flush().map_err(Fault::Write)
}

/// Writes the text of the recording with these parts to the output.
///
/// # Errors
///
/// Why the text isn't whole.
pub fn print_text<W: Write>(alloc: Global, output: &mut W, parts: &Parts<'_>) -> Result<(), Fault> {
    let layout = layout_of(alloc, parts)?;
    let reading = Reading {
        layout,
        processors: &parts.processors,
        kinds: kinds_of(alloc, parts)?,
        names: Names::of(alloc, parts.names)?,
        clock: clock_of(alloc, parts)?,
    };
    let entries = merged(alloc, layout, &parts.processors)?;
    write_entries(alloc, output, &reading, &entries.items)
}

/// Writes the symbols of the recording with these parts to the output.
///
/// # Errors
///
/// A write or the flush failed.
pub fn print_symbols<W: Write>(output: &mut W, parts: &Parts<'_>) -> Result<(), Fault> {
    output.write_all(parts.symbols).map_err(Fault::Write)?;
    output.flush().map_err(Fault::Write)
}
