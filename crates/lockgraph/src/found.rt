//! The traces of a file that is reduced with others, and where their headers stand.
ghost use Rattle.std.specs.Prelude.{◌≡◌, [], Err, IfOk, IfSome, OnOk, false, map, true};
ghost use Rattle.ld_trace.specs.Sources.{plain, stream_fault};
ghost use Rattle.ld_origin.specs.Origin.{plain_home};
ghost use Rattle.lockgraph.specs.Groups.{AreHomed, file_read, home_in};
ghost use Rattle.ld_files.specs.Streams.{fault_of_file, has_trace};

use crate::reduce::ReduceFault;
use ld_check::CheckFault;
use ld_files::Fault;
use ld_origin::Home;
use ld_trace::{Source, split};
use std::alloc::{AllocError, Global};

/// The traces of a stream.
#[derive(Drop)]
pub struct Found<'a> {
    /// Where their headers stand, if that is wanted.
    pub homes: Vec<Home<'a>>,
    /// How many there are.
    pub traces: usize,
}

/// The traces of this file.
///
/// # Errors
///
/// Exactly where its stream has a fault, with the file's name and its line; `NoTrace` where it has none and no trace
/// either; or `Memory` where a growth of memory was refused.
pub fn found_in<'a>(
    alloc: Global,
    name: &'a str,
    bytes: &[u8],
    from: bool,
) -> Result<Found<'a>, Fault<'a>>
    ensures homes { IfOk result (λ found. map plain_home found.homes.items
        ≡ (file_read from name.entry.now bytes.now).homes) }
    ensures fault { IfSome (stream_fault bytes.now) (λ fault.
        result ≡ Err (fault_of_file name.entry fault)) }
    ensures traces { OnOk result (has_trace bytes.now ≡ true) }
{
    match split(alloc, bytes) {
        Ok(sources) if sources.is_empty() => Err(Fault::NoTrace(name)),
        Ok(sources) => Ok(Found {
            homes: homes_of(alloc, name, &sources, from)?,
            traces: sources.len(),
        }),
        Err(fault) => Err(Fault::of_file(name, fault)),
    }
}

/// Where the headers of these traces of a file stand, if that is wanted.
fn homes_of<'a>(
    alloc: Global,
    name: &'a str,
    sources: &[Source<'_>],
    from: bool,
) -> Result<Vec<Home<'a>>, AllocError>
    ensures wanted { from ≡ true → IfOk result (λ homes.
        map plain_home homes.items ≡ map (home_in name.entry.now) (map plain sources.now)) }
    ensures unwanted { from ≡ false → IfOk result (λ homes. homes.items ≡ []) }
{
    if from {
        headers_of(alloc, name, sources)
    } else {
        Ok(Vec::new(alloc))
    }
}

/// Where the headers of these traces of a file stand.
fn headers_of<'a>(
    alloc: Global,
    name: &'a str,
    sources: &[Source<'_>],
) -> Result<Vec<Home<'a>>, AllocError>
    ensures { IfOk result (λ homes.
        map plain_home homes.items ≡ map (home_in name.entry.now) (map plain sources.now)) }
{
    let mut homes = Vec::new(alloc);
    for source in sources {
        homes.push(home_in(name, source))?;
    }
    Ok(homes)
}

/// Where the header of a trace of a file stands: the line before its first one.
fn home_in<'a>(name: &'a str, source: &Source<'_>) -> Home<'a>
    ensures { plain_home result ≡ home_in name.entry.now (plain source.now) }
{
    Home {
        file: name,
        line: source.first_line.saturating_sub(1),
    }
}

/// The traces of what is left, which stand in no file.
pub fn found_left<'a>(alloc: Global, text: &[u8], from: bool) -> Result<Found<'a>, ReduceFault>
    ensures { IfOk result (λ found.
        AreHomed from (record { bytes = text.now; homes = map plain_home found.homes.items })) }
{
    match split(alloc, text) {
        Ok(sources) => Ok(Found {
            homes: homes_of(alloc, "", &sources, from)?,
            traces: sources.len(),
        }),
        Err(fault) => Err(ReduceFault::from(CheckFault::from(fault))),
    }
}
