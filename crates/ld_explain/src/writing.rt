//! Writes names and places. Each call answers `AllocError` where memory for its text was refused.

use ld_escape::write_on_line;
use ld_overview::ClassName;
use ld_places::ShownPlaces;
use ld_trace::State;
use std::alloc::AllocError;
use std::io::Write;

/// The subclass of a class behind its name, `/N`, where it has one.
pub fn write_sub(out: &mut Vec<u8>, class: ClassName<'_>) -> Result<(), AllocError> {
    if class.sub == 0 {
        return Ok(());
    }
    let sub = class.sub;
    write!(out, "/{sub}").map_err(|_| AllocError)
}

/// A lock that is held: `CLASS` or `CLASS@INSTANCE`, with ` (written)` behind it if readers wait for its task.
pub fn write_lock(
    out: &mut Vec<u8>,
    class: &[u8],
    instance: Option<&[u8]>,
    is_written: bool,
) -> Result<(), AllocError> {
    out.extend_from_slice(class)?;
    if let Some(name) = instance {
        out.push(b'@')?;
        out.extend_from_slice(name)?;
    }
    if is_written {
        out.extend_from_slice(b" (written)")?;
    }
    Ok(())
}

pub fn state_name(state: State) -> &'static str {
    match state {
        State::Hard => "hard",
        State::Soft => "soft",
    }
}

/// Where a line is shown: `FILE:LINE`.
pub fn write_place(
    out: &mut Vec<u8>,
    places: &ShownPlaces<'_>,
    line: u64,
) -> Result<(), AllocError> {
    match places.place(line) {
        Some(place) => {
            write_on_line(out, place.file.as_bytes())?;
            let own = place.line;
            write!(out, ":{own}").map_err(|_| AllocError)
        }
        None => write!(out, "line {line}").map_err(|_| AllocError),
    }
}
