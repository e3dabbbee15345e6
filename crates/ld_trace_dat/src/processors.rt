//! The pages of each processor.
ghost use Rattle.std.specs.Prelude.{◌≡◌, map};
ghost use Rattle.ld_trace_dat.specs.Lists.{Gives};
ghost use Rattle.ld_trace_dat.specs.Parts.{seen};
ghost use Rattle.ld_trace_dat.specs.Recordings.{number_at, pages_at, plain_processor, processor_at, processors};

use crate::fault::{DatFault, ReadError, Wrong};
use crate::part::{long, part, word};
use crate::start::Version;
use std::alloc::Global;

/// More processors than a kernel has.
const MOST_PROCESSORS: usize = 1 << 16;

/// The pages of a processor.
#[derive(Clone, Copy, Debug, PartialEq, Eq)]
pub struct Processor<'a> {
    pub number: usize,
    pub pages: &'a [u8],
}

/// How far a table of processors was read.
#[derive(Clone, Copy, Debug, PartialEq, Eq)]
pub(crate) struct Row {
    /// Offset of the next row.
    pub at: usize,
    /// The least number that the next processor may have.
    pub number: usize,
    /// The least offset at which its pages may stand.
    pub low: usize,
}

/// The number of the processor of the next row, and where the rest of the row stands.
fn number_at(table: &[u8], version: Version, row: Row) -> Result<(usize, usize), DatFault>
    ensures { result ≡ number_at table.now version row }
{
    match version {
        Version::Six => Ok((row.number, row.at)),
        Version::Seven => word(table, row.at),
    }
}

/// So many bytes of pages from an offset on, and where the next processor's may stand.
#[tactic(auto, unfolding(crate::specs::Recordings::pages_at))]
fn pages_at(
    bytes: &[u8],
    at: usize,
    low: usize,
    offset: usize,
    size: usize,
) -> Result<(&[u8], usize), DatFault>
    ensures { seen (λ x. (x.0.now, x.1)) result ≡ pages_at bytes.entry.now at low offset size }
{
    if size == 0 {
        return Ok((&[], low));
    }
    if offset < low {
        return Err(DatFault {
            offset: at,
            wrong: Wrong::Overlap,
        });
    }
    part(bytes, offset, size)
}

/// The processor of the next row, and what may follow.
#[tactic(auto, unfolding(crate::specs::Recordings::processor_at))]
fn processor_at<'a>(
    table: &[u8],
    bytes: &'a [u8],
    version: Version,
    row: Row,
) -> Result<(Processor<'a>, Row), DatFault>
    ensures { seen (λ x. (plain_processor x.0, x.1)) result ≡ processor_at table.now bytes.entry.now version row }
{
    let (number, start) = number_at(table, version, row)?;
    if number < row.number || number >= MOST_PROCESSORS {
        return Err(DatFault {
            offset: row.at,
            wrong: Wrong::Processor,
        });
    }
    let (offset, sized) = long(table, start)?;
    let (size, end) = long(table, sized)?;
    let (pages, low) = pages_at(bytes, start, row.low, offset, size)?;
    let next = Row {
        at: end,
        number: number + 1,
        low,
    };
    Ok((Processor { number, pages }, next))
}

/// So many processors of a table, and how far it was read.
pub(crate) fn processors<'a>(
    alloc: Global,
    table: &[u8],
    bytes: &'a [u8],
    version: Version,
    count: usize,
    first: Row,
) -> Result<(Vec<Processor<'a>>, Row), ReadError>
    ensures { Gives (λ x. (map plain_processor x.0.items, x.1)) result (processors table.now bytes.entry.now version count first) }
{
    let mut found = Vec::new(alloc);
    let mut row = first;
    for _ in 0..count {
        let (processor, next) = processor_at(table, bytes, version, row)?;
        found.push(processor)?;
        row = next;
    }
    Ok((found, row))
}
