//! Writes where something was first seen. Each call answers `AllocError` if memory was refused.
ghost use Rattle.std.specs.Prelude.{◌≡◌, ◌++◌, OnOk};
ghost use Rattle.ld_rows.specs.declared.violations.Since.TheVariants as since;
ghost use Rattle.ld_json.specs.Json.{handler_json, held_json, instance_member, listed, seen_members};
ghost use Rattle.ld_json.specs.Json.{since_json, state_name, truth};

use crate::places::{write_class, write_line};
use crate::quoted::{write_text, write_words};
use ld_rows::{Handler, Held, Line, Seen, Since};
use ld_trace::State;
use std::alloc::{AllocError, Global};

/// Writes where something was first seen, with what its task had open.
pub fn write_seen(alloc: Global, out: &mut Vec<u8>, seen: &Seen<'_>) -> Result<(), AllocError>
    ensures { OnOk result (out.new.items ≡ out.old.items ++ seen_members seen.now) }
{
    write_line(alloc, out, &seen.line)?;
    write_text(alloc, out, ",\"task\":", seen.task)?;
    write_all_held(alloc, out, ",\"held\":", &seen.held)?;
    write_handlers(alloc, out, ",\"handlers\":", &seen.handlers)?;
    Ok(())
}

/// Writes since when interrupts are enabled, behind these words.
pub fn write_since(
    alloc: Global,
    out: &mut Vec<u8>,
    words: &str,
    since: &Since<'_>,
) -> Result<(), AllocError>
    ensures { OnOk result (out.new.items ≡ out.old.items ++ words.now ++ since_json since.now) }
{
    write_words(out, words)?;
    match since {
        Since::Off => write_words(out, "{\"enabled\":false}"),
        Since::Start => write_words(out, "{\"enabled\":true}"),
        Since::Line(line) => write_since_line(alloc, out, line),
    }
}

/// Writes that interrupts are enabled since this line.
fn write_since_line(alloc: Global, out: &mut Vec<u8>, line: &Line<'_>) -> Result<(), AllocError>
    ensures { OnOk result (out.new.items ≡ out.old.items ++ since_json (since.Line line.now)) }
{
    write_words(out, "{\"enabled\":true")?;
    write_line(alloc, out, line)?;
    write_words(out, "}")?;
    Ok(())
}

/// Writes a state behind these words.
pub fn write_state(out: &mut Vec<u8>, words: &str, state: State) -> Result<(), AllocError>
    ensures { OnOk result (out.new.items ≡ out.old.items ++ words.now ++ state_name state) }
{
    write_words(out, words)?;
    match state {
        State::Hard => write_words(out, "hard"),
        State::Soft => write_words(out, "soft"),
    }
}

/// Writes locks that are held, behind these words.
fn write_all_held(
    alloc: Global,
    out: &mut Vec<u8>,
    words: &str,
    all: &[Held<'_>],
) -> Result<(), AllocError>
    ensures { OnOk result (out.new.items ≡ out.old.items ++ words.now ++ listed held_json all.now) }
{
    write_words(out, words)?;
    let [first, others @ ..] = all else {
        return write_words(out, "[]");
    };
    write_held(alloc, out, "[", first)?;
    for held in others {
        write_held(alloc, out, ",", held)?;
    }
    write_words(out, "]")
}

/// Writes a lock that is held, behind these words.
fn write_held(
    alloc: Global,
    out: &mut Vec<u8>,
    words: &str,
    held: &Held<'_>,
) -> Result<(), AllocError>
    ensures { OnOk result (out.new.items ≡ out.old.items ++ words.now ++ held_json held.now) }
{
    write_words(out, words)?;
    write_class(alloc, out, "{\"class\":", held.class)?;
    write_instance(alloc, out, held.instance)?;
    write_truth(out, ",\"written\":", held.is_written)?;
    write_line(alloc, out, &held.line)?;
    write_words(out, "}")?;
    Ok(())
}

/// Writes which lock of a class it is, if that is known.
pub fn write_instance(
    alloc: Global,
    out: &mut Vec<u8>,
    instance: Option<&[u8]>,
) -> Result<(), AllocError>
    ensures { OnOk result (out.new.items ≡ out.old.items ++ instance_member instance.entry) }
{
    match instance {
        Some(name) => write_text(alloc, out, ",\"instance\":", name),
        None => Ok(()),
    }
}

/// Writes whether something is so, behind these words.
pub fn write_truth(out: &mut Vec<u8>, words: &str, is_so: bool) -> Result<(), AllocError>
    ensures { OnOk result (out.new.items ≡ out.old.items ++ words.now ++ truth is_so) }
{
    write_words(out, words)?;
    if is_so {
        write_words(out, "true")
    } else {
        write_words(out, "false")
    }
}

/// Writes handlers that a task is in, behind these words.
fn write_handlers(
    alloc: Global,
    out: &mut Vec<u8>,
    words: &str,
    handlers: &[Handler<'_>],
) -> Result<(), AllocError>
    ensures { OnOk result (out.new.items ≡ out.old.items ++ words.now
        ++ listed handler_json handlers.now) }
{
    write_words(out, words)?;
    let [first, others @ ..] = handlers else {
        return write_words(out, "[]");
    };
    write_handler(alloc, out, "[", first)?;
    for handler in others {
        write_handler(alloc, out, ",", handler)?;
    }
    write_words(out, "]")
}

/// Writes a handler behind these words.
fn write_handler(
    alloc: Global,
    out: &mut Vec<u8>,
    words: &str,
    handler: &Handler<'_>,
) -> Result<(), AllocError>
    ensures { OnOk result (out.new.items ≡ out.old.items ++ words.now ++ handler_json handler.now) }
{
    write_words(out, words)?;
    write_state(out, "{\"state\":\"", handler.state)?;
    write_words(out, "\"")?;
    write_line(alloc, out, &handler.line)?;
    write_words(out, "}")?;
    Ok(())
}
