//! The recording that a file holds.
ghost use Rattle.ld_trace_dat.specs.Lists.{Gives};
ghost use Rattle.ld_trace_dat.specs.Recordings.{plain, recording_said};

use crate::fault::ReadError;
use crate::formats::System;
use crate::processors::Processor;
use crate::start::{Version, start};
use crate::version_6::read_6;
use crate::version_7::read_7;
use std::alloc::Global;

/// The recording that a file holds, by the texts that the kernel gave.
#[derive(Debug, Drop)]
pub struct Recording<'a> {
    /// The text of `events/header_page`.
    pub header_page: &'a [u8],
    /// The texts of `events/SYSTEM/EVENT/format`.
    pub systems: Vec<System<'a>>,
    /// The text of /proc/kallsyms; empty if the file hasn't it.
    pub symbols: &'a [u8],
    /// The text of `saved_cmdlines`; empty if the file hasn't it.
    pub names: &'a [u8],
    /// The clock: the text of `trace_clock`, or its name alone; empty for the kernel's first one, `local`.
    pub clock: &'a [u8],
    /// The pages of each processor, by rising numbers.
    pub processors: Vec<Processor<'a>>,
}

/// The recording that the bytes of a file hold.
///
/// # Errors
///
/// What is wrong with the bytes, and at which offset; or a growth of memory was refused.
#[tactic(auto, unfolding(crate::specs::Recordings::recording_said))]
pub fn recording_of(alloc: Global, bytes: &[u8]) -> Result<Recording<'_>, ReadError>
    ensures { Gives plain result (recording_said bytes.now) }
{
    let (version, at) = start(bytes)?;
    match version {
        Version::Six => read_6(alloc, bytes, at),
        Version::Seven => read_7(alloc, bytes, at),
    }
}
