//! What is wrong with a file.
ghost use Rattle.std.specs.Prelude.{◌≡◌};
ghost use Rattle.ld_trace_dat.specs.declared.fault.ReadError.TheVariants as errors;

use std::alloc::{AllocError, AllocFailed};

/// What is wrong with a file.
#[derive(Clone, Copy, Debug, PartialEq, Eq)]
pub enum Wrong {
    /// It doesn't begin as a file of trace-cmd.
    Magic,
    /// Its version is neither 6 nor 7.
    Version,
    /// Its numbers have their highest byte first.
    BigEndian,
    /// The file, or the section or option that holds this part, ends within it.
    Ends,
    /// Other bytes stand in the place of a name that each file has there.
    Name,
    /// It holds a text, not pages.
    Latency,
    /// The section is compressed.
    Compressed,
    /// It is another section than the option says.
    Section,
    /// The next options stand before the end of these.
    Order,
    /// No option says where this is: the layout of pages, the formats of events, or the pages.
    Missing,
    /// A second option of this kind.
    Twice,
    /// The pages of a second buffer.
    Buffers,
    /// It is one of several recordings, of a host and its guests.
    Guest,
    /// The number of a processor isn't above that of the one before it, or is 65,536 or more.
    Processor,
    /// The pages of a processor begin before those of the one before it end, or before the pages' part of the file.
    Overlap,
}

/// What is wrong with a file, and where.
#[derive(Clone, Copy, Debug, PartialEq, Eq)]
pub struct DatFault {
    /// Offset in the file of the part that can't be read.
    pub offset: usize,
    pub wrong: Wrong,
}

/// Why a file wasn't read.
#[derive(Clone, Copy, Debug, PartialEq, Eq)]
pub enum ReadError {
    /// A growth of memory was refused.
    Memory,
    Fault(DatFault),
}

impl From<DatFault> for ReadError {
    ghost from_gives = { λ f e. e ≡ errors.Fault f };

    fn from(fault: DatFault) -> ReadError {
        ReadError::Fault(fault)
    }
}

impl From<AllocError> for ReadError {
    ghost from_gives = { λ _ e. e ≡ errors.Memory };

    fn from(_refusal: AllocError) -> ReadError {
        ReadError::Memory
    }
}

impl<T: Drop> From<AllocFailed<T>> for ReadError {
    ghost from_gives = { λ _ e. e ≡ errors.Memory };

    fn from(_refusal: AllocFailed<T>) -> ReadError {
        ReadError::Memory
    }
}
