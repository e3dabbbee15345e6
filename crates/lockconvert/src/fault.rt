//! Why there is no whole text.

use ld_kernel::Wrong as EventWrong;
use ld_layout::{Fault as TextFault, Part, Wrong as LineWrong};
use ld_pages::Wrong as PageWrong;
use ld_trace_dat::{DatFault, Wrong as FileWrong};
use std::alloc::AllocError;
use std::io;
use thiserror::Error;

/// Why there is no whole text.
#[derive(Debug, Drop, Error)]
pub enum Fault {
    /// This file can't be read.
    #[error("{0}: {1}")]
    Read(String, io::Error),
    /// No processor has a file of pages in this folder.
    #[error("{0}: no per_cpu/cpu0/trace_pipe_raw: DIR is what `record stop --pages DIR` writes")]
    NoPages(String),
    /// This line of this file isn't a kernel's.
    #[error("{0}:{1}: {2}")]
    Line(String, usize, &'static str),
    /// What stands at this offset of a file of trace-cmd can't be read.
    #[error("{0}: offset {1}: {2}")]
    File(String, usize, &'static str),
    /// The section at this offset of a file of trace-cmd is compressed.
    #[error("{0}: offset {1}: compressed: `trace-cmd convert --compression none -i {0} -o NEW.dat` writes a file that \
         can be read")]
    Compressed(String, usize),
    /// This file has another fault.
    #[error("{0}: {1}")]
    Text(String, &'static str),
    /// This format has no field of this name that can be read.
    #[error("{0}: no field {1} that can be read")]
    Field(String, &'static str),
    /// The bytes of this processor, of this page from 0, at this offset in it, can't be read.
    #[error("processor {0}, page {1}, offset {2}: {3}")]
    Pages(usize, usize, usize, &'static str),
    /// There are 2^64 - 1 events, or more.
    #[error("too many events")]
    Many,
    /// A write or the flush failed.
    #[error("write failed: {0}")]
    Write(io::Error),
    /// A growth of memory was refused.
    #[error("out of memory")]
    Memory,
}

impl From<AllocError> for Fault {
    fn from(_refusal: AllocError) -> Fault {
        Fault::Memory
    }
}

/// What is wrong with a line of a format or of `header_page`.
pub fn words_of_line(wrong: LineWrong) -> &'static str {
    match wrong {
        LineWrong::Name => "not `name: NAME`",
        LineWrong::Id => "not `ID: NUMBER`",
        LineWrong::Heading => "not `format:`",
        LineWrong::Field => "not a field, as `field:TYPE NAME; offset:N; size:N; signed:N;`",
        LineWrong::Declaration => "a field without a name",
        LineWrong::Number => "no number of 32 bits",
        LineWrong::Sign => "neither `signed:0` nor `signed:1`",
    }
}

/// What is wrong with a file of this name.
pub fn fault_of_text(file: String, fault: TextFault) -> Fault {
    match fault {
        TextFault::Line(line, wrong) => Fault::Line(file, line, words_of_line(wrong)),
        TextFault::Ends => Fault::Text(file, "no line `print fmt:`"),
        TextFault::Printed => Fault::Text(file, "a line `print fmt:`, which header_page hasn't"),
        TextFault::Missing(Part::Timestamp) => Fault::Text(file, "no field timestamp"),
        TextFault::Missing(Part::Commit) => Fault::Text(file, "no field commit"),
        TextFault::Missing(Part::Contents) => Fault::Text(file, "no field data"),
        TextFault::Size(Part::Timestamp) => Fault::Text(file, "timestamp hasn't 8 bytes"),
        TextFault::Size(Part::Commit) => Fault::Text(file, "commit has neither 4 bytes nor 8"),
        TextFault::Size(Part::Contents) => Fault::Text(file, "data of no known size"),
        TextFault::Impossible => Fault::Text(file, "the fields don't stand in a page"),
    }
}

/// What is wrong with a file of trace-cmd.
fn words_of_file(wrong: FileWrong) -> &'static str {
    match wrong {
        FileWrong::Magic => "no file of `trace-cmd record`",
        FileWrong::Version => "a version of trace.dat that is neither 6 nor 7",
        FileWrong::BigEndian => "a recording of a big endian machine",
        FileWrong::Ends => "the file ends here, or the part that holds this",
        FileWrong::Name => "not the name that stands here in each trace.dat",
        FileWrong::Latency => "the text of a latency tracer, not pages",
        FileWrong::Compressed => "compressed",
        FileWrong::Section => "not the section that an option says",
        FileWrong::Order => "the next options stand before the end of these",
        FileWrong::Missing =>
            "no option says where the page's layout, the formats or the pages are",
        FileWrong::Twice => "a second option of its kind",
        FileWrong::Buffers => "a second buffer: record without -B",
        FileWrong::Guest => "a recording of a host and its guests: record each alone",
        FileWrong::Processor => "the numbers of the processors don't rise, or are too large",
        FileWrong::Overlap =>
            "the pages of a processor begin before those of the one before it end",
    }
}

/// What is wrong with the file of trace-cmd of this name.
pub fn fault_of_file(file: String, fault: DatFault) -> Fault {
    match fault.wrong {
        FileWrong::Compressed => Fault::Compressed(file, fault.offset),
        wrong => Fault::File(file, fault.offset, words_of_file(wrong)),
    }
}

/// What is wrong with the bytes of a page.
pub fn words_of_page(wrong: PageWrong) -> &'static str {
    match wrong {
        PageWrong::Short => "the file ends within a page",
        PageWrong::Commit => "more data than the page has room for, or flags that no kernel writes",
        PageWrong::Cut => "an event goes on behind the end of the page's data",
        PageWrong::Length => "no length of an event",
        PageWrong::Late => "a time that 64 bits don't hold",
        PageWrong::Back => "time goes back",
    }
}

/// What is wrong with the bytes of an event.
pub fn words_of_event(wrong: EventWrong) -> &'static str {
    match wrong {
        EventWrong::Short => "an event is shorter than its fields",
        EventWrong::Task => "the number of a task is negative",
        EventWrong::How => "an acquisition of no known kind",
        EventWrong::Mode => "an acquisition by no kind of reader or writer",
        EventWrong::Subclass => "a subclass above 255",
        EventWrong::Name => "no name of one line where the event tells that it stands",
        EventWrong::Large => "a number that its 32 bits don't hold",
    }
}
