//! Where the lines that a report names stand in their files, as comments.
ghost use Rattle.std.specs.Prelude.{◌≡◌, ◌++◌, ◌≤◌, [], IfOk, OnOk, false, flat_map, length, map};
ghost use Rattle.std.specs.List.{list_any};
ghost use Rattle.ld_trace.specs.Sources.{plain};
ghost use Rattle.ld_places.specs.ShownPlaces.{has_origin};
ghost use Rattle.ld_files.specs.Comments.{comment_line, tame};

use indexmap::IndexSet;
use ld_baseline::lines_named;
use ld_places::ShownPlaces;
use ld_trace::{next_line, text};
use std::alloc::{AllocError, Global};
use std::io::Write;

/// What is to be said of the lines of all files that a report names, each once: `line L is FILE:LINE`. If there is one
/// file alone, nothing is said of a line that has the same number there.
pub fn remarks(
    alloc: Global,
    places: &ShownPlaces<'_>,
    report: &[u8],
) -> Result<Vec<Vec<u8>>, AllocError>
    ensures few { length places.now.files.now ≤ 1
        → list_any (λ source. has_origin (plain source)) places.now.sources.now ≡ false
        → IfOk result (λ all. all.items ≡ []) }
{
    if places.files.count() <= 1 && !places.has_origins() {
        return Ok(Vec::new(alloc));
    }
    remarks_on(alloc, places, report)
}

/// The same where one may be said.
fn remarks_on(
    alloc: Global,
    places: &ShownPlaces<'_>,
    report: &[u8],
) -> Result<Vec<Vec<u8>>, AllocError> {
    let mut all = Vec::new(alloc);
    let mut seen = IndexSet::new(alloc);
    let mut left = report;
    // Each line has a byte.
    for _ in 0..report.len() {
        let Some((first, rest)) = next_line(left) else {
            break;
        };
        for line in lines_named(text(first)) {
            if let Some(line) = line {
                if is_elsewhere(places, line) && seen.insert(line)? {
                    all.push(remark(alloc, places, line)?)?;
                }
            }
        }
        left = rest;
    }
    Ok(all)
}

/// Whether a line may have another number where it is shown.
fn is_elsewhere(places: &ShownPlaces<'_>, line: u64) -> bool {
    places.files.count() > 1 || places.origin(line).is_some()
}

/// What is to be said of a line.
fn remark(alloc: Global, places: &ShownPlaces<'_>, line: u64) -> Result<Vec<u8>, AllocError> {
    let mut remark = Vec::new(alloc);
    match places.place(line) {
        Some(place) => {
            let file = place.file;
            let own = place.line;
            write!(remark, "line {line} is {file}:{own}").map_err(|_| AllocError)?;
        }
        None => write!(remark, "line {line} is in no file").map_err(|_| AllocError)?,
    }
    Ok(remark)
}

/// Writes each of these as a comment.
pub fn write_comments(out: &mut Vec<u8>, remarks: &[Vec<u8>]) -> Result<(), AllocError>
    ensures { OnOk result (out.new.items
        ≡ out.old.items ++ flat_map comment_line (map (λ remark. remark.items) remarks.now)) }
{
    for remark in remarks {
        write_comment(out, remark)?;
    }
    Ok(())
}

/// Writes a line that says nothing to whoever reads it as a known report.
fn write_comment(out: &mut Vec<u8>, remark: &[u8]) -> Result<(), AllocError>
    ensures { OnOk result (out.new.items ≡ out.old.items ++ comment_line remark.now) }
{
    out.extend_from_slice(b"# ")?;
    for byte in remark {
        out.push(tame(*byte))?;
    }
    out.push(b'\n')?;
    Ok(())
}

/// A byte of a comment: an LF, which the name of a file may have, would end it.
fn tame(byte: u8) -> u8
    ensures { result ≡ tame byte }
{
    if byte == b'\n' { b'?' } else { byte }
}
