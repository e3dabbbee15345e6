//! The parts of a recording, as a folder or a file of trace-cmd holds them.

use ld_kernel::Sort;
use ld_trace_dat::{Processor, Recording};
use std::alloc::{AllocError, Global};

/// An event that is read.
#[derive(Clone, Copy)]
pub struct Known {
    pub sort: Sort,
    /// The folder of its system in `events`.
    pub system: &'static str,
    /// Its own folder there, which is its name.
    pub name: &'static str,
}

impl Known {
    /// Its file `format`, from the folder of tracefs on.
    ///
    /// # Errors
    ///
    /// A growth of memory was refused.
    pub fn file(self, alloc: Global) -> Result<String, AllocError> {
        let system = self.system;
        let name = self.name;
        format!(in alloc; "events/{system}/{name}/format")
    }
}

/// The events that are read.
pub const KNOWN: [Known; 8] = [
    Known {
        sort: Sort::Acquire,
        system: "lockcheck",
        name: "acquire",
    },
    Known {
        sort: Sort::Release,
        system: "lockcheck",
        name: "release",
    },
    Known {
        sort: Sort::StockAcquire,
        system: "lock",
        name: "lock_acquire",
    },
    Known {
        sort: Sort::StockRelease,
        system: "lock",
        name: "lock_release",
    },
    Known {
        sort: Sort::IrqEnable,
        system: "preemptirq",
        name: "irq_enable",
    },
    Known {
        sort: Sort::IrqDisable,
        system: "preemptirq",
        name: "irq_disable",
    },
    Known {
        sort: Sort::StepBegin,
        system: "cpuhp",
        name: "cpuhp_enter",
    },
    Known {
        sort: Sort::StepEnd,
        system: "cpuhp",
        name: "cpuhp_exit",
    },
];

/// What holds a recording, by its path.
#[derive(Clone, Copy)]
pub enum Holder<'a> {
    Folder(&'a str),
    File(&'a str),
}

impl Holder<'_> {
    /// How a fault names a part.
    pub fn part(self, alloc: Global, name: &str) -> Result<String, AllocError> {
        match self {
            Holder::Folder(folder) => format!(in alloc; "{folder}/{name}"),
            Holder::File(file) => format!(in alloc; "{file}: {name}"),
        }
    }
}

/// The parts of a recording: the kernel's texts, and the pages.
#[derive(Drop)]
pub struct Parts<'a> {
    pub holder: Holder<'a>,
    /// The text of `events/header_page`.
    pub header_page: &'a [u8],
    /// Events that are read, each with the text of its file `format`.
    pub formats: Vec<(Known, &'a [u8])>,
    /// The pages of each processor, by rising numbers.
    pub processors: Vec<Processor<'a>>,
    /// The text of `trace_clock`, or a clock's name alone.
    pub clock: &'a [u8],
    /// The text of `saved_cmdlines`; empty if there is none.
    pub names: &'a [u8],
    /// The text of /proc/kallsyms; empty if there is none.
    pub symbols: &'a [u8],
}

/// The clock of a kernel in which none was chosen.
const FIRST_CLOCK: &[u8] = b"local";

/// Whether this is the format of an event with this name.
fn has_name(text: &[u8], name: &str) -> bool {
    match text.strip_prefix(b"name: ") {
        Some(rest) => match rest.strip_prefix(name.as_bytes()) {
            Some(rest) => rest.starts_with(b"\n"),
            None => false,
        },
        None => false,
    }
}

/// The format of an event, if the recording has it.
fn format_in<'a>(recording: &Recording<'a>, event: Known) -> Option<&'a [u8]> {
    for system in &recording.systems {
        if system.name == event.system.as_bytes() {
            for text in &system.formats {
                if has_name(*text, event.name) {
                    return Some(*text);
                }
            }
        }
    }
    None
}

/// The parts that a file of trace-cmd holds.
///
/// # Errors
///
/// A growth of memory was refused.
pub fn parts_of<'a>(
    alloc: Global,
    file: &'a str,
    recording: Recording<'a>,
) -> Result<Parts<'a>, AllocError> {
    let mut formats = Vec::new(alloc);
    for event in &KNOWN {
        if let Some(text) = format_in(&recording, *event) {
            formats.push((*event, text))?;
        }
    }
    Ok(Parts {
        holder: Holder::File(file),
        header_page: recording.header_page,
        formats,
        clock: if recording.clock.is_empty() {
            FIRST_CLOCK
        } else {
            recording.clock
        },
        names: recording.names,
        symbols: recording.symbols,
        processors: recording.processors,
    })
}
