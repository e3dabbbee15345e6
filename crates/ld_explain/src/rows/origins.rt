//! What maps say of lines and of classes.

use ld_overview::{ClassName, lock_of_readers};
use ld_rows::{Frame, Origin, Place, Taken};
use ld_source_map::{At, Call, Maps, Origin as Known, calls_of, write_plain};
use std::alloc::{AllocError, Global};

/// What a map says of a line.
pub fn place_of(alloc: Global, at: At<'_>) -> Result<Place, AllocError> {
    match at {
        At::Place { function, source } => Ok(Place::Called(frames_of(alloc, function, source)?)),
        At::Recorded(line) => Ok(Place::Recorded(line)),
    }
}

/// The calls that led to a place.
fn frames_of(alloc: Global, function: &[u8], source: &[u8]) -> Result<Vec<Frame>, AllocError> {
    let calls = calls_of(alloc, function, source)?;
    let mut frames = Vec::with_capacity(alloc, calls.len())?;
    for call in &calls {
        frames.push(frame_of(alloc, call)?)?;
    }
    Ok(frames)
}

/// A call, with its texts as they were before they were written.
fn frame_of(alloc: Global, call: &Call<'_>) -> Result<Frame, AllocError> {
    let function = plain_of(alloc, call.function)?;
    let file = plain_of(alloc, call.file)?;
    Ok(Frame {
        function,
        file,
        line: call.line,
    })
}

/// A text as it was before a recorder wrote it.
fn plain_of(alloc: Global, written: &[u8]) -> Result<Vec<u8>, AllocError> {
    let mut plain = Vec::new(alloc);
    write_plain(&mut plain, written)?;
    Ok(plain)
}

/// Where the locks of a class come from. Readers wait for the lock that they read.
pub fn origin_of(
    alloc: Global,
    maps: &Maps<'_>,
    class: ClassName<'_>,
) -> Result<Option<Origin>, AllocError> {
    let name = lock_of_readers(class).unwrap_or(class.name);
    match maps.origin(name) {
        Some(Known::Variable { name, file }) => {
            let name = plain_of(alloc, name)?;
            let file = plain_of(alloc, file)?;
            Ok(Some(Origin::Variable { name, file }))
        }
        Some(Known::Initialised(at)) => Ok(Some(Origin::Initialised(place_of(alloc, at)?))),
        Some(Known::FirstLocked(at)) => Ok(Some(Origin::FirstLocked(place_of(alloc, at)?))),
        None => Ok(None),
    }
}

/// Where locks of a class were acquired most often.
pub fn taken_of(
    alloc: Global,
    maps: &Maps<'_>,
    class: ClassName<'_>,
) -> Result<Option<Taken>, AllocError> {
    match maps.taken(class.name) {
        Some(taken) => {
            let place = place_of(alloc, taken.at)?;
            let count = taken.count;
            Ok(Some(Taken { place, count }))
        }
        None => Ok(None),
    }
}
