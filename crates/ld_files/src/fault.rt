//! Why there is no answer.

use crate::looks::Looks;
use crate::maps::WrongMap;
use crate::nearest::NoClass;
use crate::quote::Quote;
use ld_check::CheckFault;
use ld_trace::StreamFault;
use std::alloc::{AllocError, Global};
use std::io;
use thiserror::Error;

/// Why there is no answer, or no whole one.
#[derive(Debug, Drop, Error)]
pub enum Fault<'a> {
    /// This file can't be opened.
    #[error("{0}: {1}")]
    Open(&'a str, io::Error),
    /// A read of this file failed.
    #[error("{0}: read failed")]
    Read(&'a str),
    /// This line of this file says something, and stands before every header.
    #[error("{0}:{1}: NoHeader: no line \"trace LABEL\" is above this line")]
    NoHeader(&'a str, u64),
    /// The same, and the file looks so.
    #[error("{0}:{1}: NoHeader: {2}")]
    NoStream(&'a str, u64, Looks),
    /// This line of this file begins as a header, and isn't one.
    #[error("{0}:{1}: BadHeader: a header is \"trace LABEL\", with one label of 1 to 64 bytes from ! to ~")]
    BadHeader(&'a str, u64),
    /// The same, and the line begins so.
    #[error("{0}:{1}: BadHeader: a header is \"trace LABEL\", with one label of 1 to 64 bytes from ! to ~: {2}")]
    BadHeaderQuoted(&'a str, u64, Quote),
    /// This file has no trace.
    #[error("{0}: NoTrace: no line \"trace LABEL\": nothing was recorded, or the file is empty")]
    NoTrace(&'a str),
    /// This file has another fault.
    #[error("{0}: {1}{bound}", bound = bound(.1))]
    File(&'a str, StreamFault),
    /// The files are no stream together, though each of them is one.
    #[error("{0}{bound}", bound = bound(.0))]
    Together(StreamFault),
    /// This line of this known text says something, and is no line of a report.
    #[error("{0}:{1}: UnknownLine: neither a line of a report, as \"inversion A -> B at ..\", nor a comment")]
    UnknownLine(&'a str, u64),
    /// The same, and the line begins so.
    #[error("{0}:{1}: UnknownLine: neither a line of a report, as \"inversion A -> B at ..\", nor a comment: {2}")]
    UnknownLineQuoted(&'a str, u64, Quote),
    /// This is wrong with the map of this name.
    #[error("{0}{1}")]
    Map(&'a str, WrongMap),
    /// This is wrong with the map beside this file.
    #[error("{0}.places{1}")]
    MapBeside(&'a str, WrongMap),
    /// No trace acquires this class.
    #[error("{0}")]
    NoClass(NoClass),
    /// The pieces of traces are longer together than a stream may be.
    #[error("TooLong: the pieces are longer together than a stream may be; ask for more lines in each")]
    Pieces,
    /// A write or the flush failed.
    #[error("write failed")]
    Write,
    /// A growth of memory was refused.
    #[error("out of memory")]
    Memory,
    /// The workers' book doesn't list just the traces that were read; this number is the least that
    /// tells so.
    #[error("uneven at {0}")]
    Uneven(u64),
}

/// What is behind the name of a fault that a file or several together are too much.
fn bound(fault: &StreamFault) -> &'static str {
    match fault {
        StreamFault::TooLong => ": more than 2,147,483,648 bytes",
        StreamFault::TooManyTraces => ": more than 65,535 traces",
        _ => "",
    }
}

impl<'a> Fault<'a> {
    ghost use Rattle.std.specs.Prelude.{◌≡◌};
    ghost use Rattle.ld_files.specs.Quotes.{IsQuoted};
    ghost use Rattle.ld_files.specs.Streams.{fault_of_file, fault_of_files, looking};

    /// A fault of the stream that this file is.
    pub fn of_file(name: &'a str, fault: StreamFault) -> Fault<'a>
        ensures { result ≡ fault_of_file name.entry fault }
    {
        match fault {
            StreamFault::NoHeader(line) => Fault::NoHeader(name, line),
            StreamFault::BadHeader(line) => Fault::BadHeader(name, line),
            StreamFault::Memory => Fault::Memory,
            fault => Fault::File(name, fault),
        }
    }

    /// The same fault, where these files are read as one stream: of one file what is wrong with the stream is told
    /// with its name.
    pub fn of_files(self, names: &[&'a str]) -> Fault<'a>
        ensures { result ≡ fault_of_files names.now self.entry }
    {
        match (self, names) {
            (Fault::Together(fault), [name]) => Fault::of_file(*name, fault),
            (fault, _) => fault,
        }
    }

    /// The same fault of a file that looks so: it is told where a line stands before every header.
    pub fn looking(self, looks: Looks) -> Fault<'a>
        ensures { result ≡ looking looks self.entry }
    {
        match self {
            Fault::NoHeader(name, line) => Fault::NoStream(name, line, looks),
            fault => fault,
        }
    }

    /// The same fault of a file with these bytes: a line that is no header, or none of a report, is told with how it
    /// begins. Where the memory for that is refused, its number alone is told.
    pub fn quoting(self, alloc: Global, bytes: &[u8]) -> Fault<'a>
        ensures { IsQuoted bytes.now self.entry result }
    {
        match self {
            Fault::BadHeader(name, line) => match Quote::of(alloc, bytes, line) {
                Ok(quote) => Fault::BadHeaderQuoted(name, line, quote),
                Err(_) => Fault::BadHeader(name, line),
            },
            Fault::UnknownLine(name, line) => match Quote::of(alloc, bytes, line) {
                Ok(quote) => Fault::UnknownLineQuoted(name, line, quote),
                Err(_) => Fault::UnknownLine(name, line),
            },
            fault => fault,
        }
    }

    /// The same fault of the stream with these bytes that was read from these files.
    pub fn of_stream(self, alloc: Global, names: &[&'a str], bytes: &[u8]) -> Fault<'a>
        ensures { IsQuoted bytes.now (fault_of_files names.now self.entry) result }
    {
        self.of_files(names).quoting(alloc, bytes)
    }
}

impl From<CheckFault> for Fault<'_> {
    ghost use Rattle.std.specs.Prelude.{◌≡◌};
    ghost use Rattle.ld_files.specs.Faults.{fault_of_check};

    ghost from_gives = { λ fault gives. gives ≡ fault_of_check fault };

    fn from(fault: CheckFault) -> Self {
        match fault {
            CheckFault::Stream(fault) => Fault::Together(fault),
            CheckFault::Memory => Fault::Memory,
            CheckFault::Uneven(number) => Fault::Uneven(number),
        }
    }
}

impl From<AllocError> for Fault<'_> {
    ghost use Rattle.std.specs.Prelude.{◌≡◌};
    ghost use Rattle.ld_files.specs.declared.fault.Fault.TheVariants.{Memory};

    ghost from_gives = { λ _ fault. fault ≡ Memory };

    fn from(_refusal: AllocError) -> Self {
        Fault::Memory
    }
}
