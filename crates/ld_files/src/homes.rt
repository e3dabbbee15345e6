//! Where the headers of traces stand in their files.
ghost use Rattle.std.specs.Prelude.{◌≡◌, ◌-◌, [], IfOk, false, map, true};
ghost use Rattle.ld_trace.specs.Sources.{plain};
ghost use Rattle.ld_origin.specs.Origin.{plain_home};
ghost use Rattle.ld_files.specs.Homes.{AreHomes, IsHome};

use ld_origin::Home;
use ld_places::Places;
use ld_trace::Source;
use std::alloc::{AllocError, Global};

/// Where the headers of these traces stand, if that is wanted, else nothing.
///
/// # Errors
///
/// `AllocError` where a growth of memory was refused.
pub fn homes_wanted<'h>(
    alloc: Global,
    places: &Places<'h>,
    sources: &[Source<'_>],
    wanted: bool,
) -> Result<Vec<Home<'h>>, AllocError>
    ensures some { wanted ≡ true → IfOk result (λ homes.
        AreHomes places.now (map plain sources.now) (map plain_home homes.items)) }
    ensures none { wanted ≡ false → IfOk result (λ homes. homes.items ≡ []) }
{
    if wanted {
        homes_of(alloc, places, sources)
    } else {
        Ok(Vec::new(alloc))
    }
}

/// Where the headers of these traces stand.
fn homes_of<'h>(
    alloc: Global,
    places: &Places<'h>,
    sources: &[Source<'_>],
) -> Result<Vec<Home<'h>>, AllocError>
    ensures { IfOk result (λ homes.
        AreHomes places.now (map plain sources.now) (map plain_home homes.items)) }
{
    let mut homes = Vec::new(alloc);
    for source in sources {
        homes.push(home_of(places, source))?;
    }
    Ok(homes)
}

/// Where the header of a trace stands: the line before its first one.
fn home_of<'h>(places: &Places<'h>, source: &Source<'_>) -> Home<'h>
    ensures { IsHome places.now (source.now.first_line - 1) (plain_home result) }
{
    let line = source.first_line.saturating_sub(1);
    match places.place(line) {
        Some(place) => Home {
            file: place.file,
            line: place.line,
        },
        None => Home { file: "", line },
    }
}
