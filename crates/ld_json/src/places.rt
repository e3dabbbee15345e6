//! Writes classes, and where lines stand and come from. Each call answers `AllocError` if memory was refused.
ghost use Rattle.std.specs.Prelude.{◌≡◌, ◌++◌, OnOk, flat_map};
ghost use Rattle.ld_json.specs.Json.{at_json, class_json, frame_json, line_member, line_members, listed};
ghost use Rattle.ld_json.specs.Json.{place_member, said_members};

use crate::quoted::{write_number, write_text, write_words};
use ld_rows::{At, Class, Frame, Line, Place};
use std::alloc::{AllocError, Global};

/// Writes a class behind these words.
pub fn write_class(
    alloc: Global,
    out: &mut Vec<u8>,
    words: &str,
    class: Class<'_>,
) -> Result<(), AllocError>
    ensures { OnOk result (out.new.items ≡ out.old.items ++ words.now ++ class_json class.entry) }
{
    write_words(out, words)?;
    write_text(alloc, out, "{\"name\":", class.name)?;
    write_number(out, ",\"subclass\":", class.sub as u64)?;
    write_words(out, "}")?;
    Ok(())
}

/// Writes where a line stands, behind these words.
pub fn write_at(alloc: Global, out: &mut Vec<u8>, words: &str, at: At<'_>) -> Result<(), AllocError>
    ensures { OnOk result (out.new.items ≡ out.old.items ++ words.now ++ at_json at.entry) }
{
    write_words(out, words)?;
    write_text(alloc, out, "{\"label\":", at.label)?;
    write_number(out, ",\"line\":", at.line)?;
    write_text(alloc, out, ",\"file\":", at.file.as_bytes())?;
    write_number(out, ",\"file_line\":", at.file_line)?;
    write_words(out, "}")?;
    Ok(())
}

/// Writes a line of a trace: where it stands, what it says, and where it comes from.
pub fn write_line(alloc: Global, out: &mut Vec<u8>, line: &Line<'_>) -> Result<(), AllocError>
    ensures { OnOk result (out.new.items ≡ out.old.items ++ line_members line.now) }
{
    write_at(alloc, out, ",\"at\":", line.at)?;
    write_said(alloc, out, line)?;
    Ok(())
}

/// Writes what a line says, and where it comes from.
pub fn write_said(alloc: Global, out: &mut Vec<u8>, line: &Line<'_>) -> Result<(), AllocError>
    ensures { OnOk result (out.new.items ≡ out.old.items ++ said_members line.now) }
{
    write_text(alloc, out, ",\"text\":", line.text)?;
    write_place(alloc, out, &line.place)?;
    Ok(())
}

/// Writes where a line comes from, if that is known.
fn write_place(alloc: Global, out: &mut Vec<u8>, place: &Option<Place>) -> Result<(), AllocError>
    ensures { OnOk result (out.new.items ≡ out.old.items ++ place_member place.now) }
{
    match place {
        Some(Place::Called(frames)) => write_frames(alloc, out, ",\"calls\":", frames),
        Some(Place::Recorded(line)) => write_number(out, ",\"recorded\":", *line),
        None => Ok(()),
    }
}

/// Writes calls behind these words.
fn write_frames(
    alloc: Global,
    out: &mut Vec<u8>,
    words: &str,
    frames: &[Frame],
) -> Result<(), AllocError>
    ensures { OnOk result (out.new.items ≡ out.old.items ++ words.now ++ listed frame_json frames.now) }
{
    write_words(out, words)?;
    let [first, others @ ..] = frames else {
        return write_words(out, "[]");
    };
    write_frame(alloc, out, "[", first)?;
    for frame in others {
        write_frame(alloc, out, ",", frame)?;
    }
    write_words(out, "]")
}

/// Writes a call behind these words.
fn write_frame(
    alloc: Global,
    out: &mut Vec<u8>,
    words: &str,
    frame: &Frame,
) -> Result<(), AllocError>
    ensures { OnOk result (out.new.items ≡ out.old.items ++ words.now ++ frame_json frame.now) }
{
    write_words(out, words)?;
    write_text(alloc, out, "{\"function\":", &frame.function)?;
    write_text(alloc, out, ",\"file\":", &frame.file)?;
    write_source_line(out, frame.line)?;
    write_words(out, "}")?;
    Ok(())
}

/// Writes the line of a call, if it is known.
fn write_source_line(out: &mut Vec<u8>, line: Option<u64>) -> Result<(), AllocError>
    ensures { OnOk result (out.new.items ≡ out.old.items ++ line_member line) }
{
    match line {
        Some(line) => write_number(out, ",\"line\":", line),
        None => Ok(()),
    }
}
