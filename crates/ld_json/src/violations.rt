//! Writes violations. Each call answers `AllocError` if memory was refused.
ghost use Rattle.std.specs.Prelude.{◌≡◌, ◌++◌, ◌∷◌, OnOk, codes, decimal};
ghost use Rattle.std.specs.Option.{option_copied};
ghost use Rattle.ld_rows.specs.declared.violations.Kind.TheVariants as kinds;
ghost use Rattle.ld_json.specs.Json.{class_json, end_at, end_members, first_member, inversion_members, kind_members};
ghost use Rattle.ld_json.specs.Json.{kind_name, listed, number_member, numbers_of, rest_of};
ghost use Rattle.ld_json.specs.Json.{state_member, use_member, violation_line};

use crate::common::write_common;
use crate::ends::write_numbers;
use crate::places::{write_at, write_class};
use crate::quoted::{write_number, write_text, write_words};
use crate::seen::write_state;
use ld_rows::{Class, End, Kind, Violation};
use ld_trace::State;
use std::alloc::{AllocError, Global};

/// Writes the line of a violation, whose ends stand at their places in these.
pub fn write_violation(
    alloc: Global,
    out: &mut Vec<u8>,
    ends: &[End<'_>],
    number: u64,
    violation: &Violation<'_>,
) -> Result<(), AllocError>
    ensures { OnOk result (out.new.items ≡ out.old.items
        ++ violation_line ends.now number violation.now) }
{
    write_kind(out, "{\"kind\":\"", violation.kind)?;
    write_words(out, "\"")?;
    write_state_member(out, violation.state)?;
    write_members(alloc, out, ends, violation)?;
    write_numbers_of(alloc, out, number, violation)?;
    write_common(alloc, out, &violation.common)?;
    write_rest(alloc, out, violation)?;
    Ok(())
}

/// Writes the line of a violation to point at, its number, and those of its group and its dependencies.
fn write_numbers_of(
    alloc: Global,
    out: &mut Vec<u8>,
    number: u64,
    violation: &Violation<'_>,
) -> Result<(), AllocError>
    ensures { OnOk result (out.new.items ≡ out.old.items ++ numbers_of number violation.now) }
{
    write_at(alloc, out, ",\"at\":", violation.at)?;
    write_number(out, ",\"number\":", number)?;
    write_number(out, ",\"group\":", violation.group as u64)?;
    write_numbers(out, ",\"dependencies\":", &violation.dependencies)?;
    Ok(())
}

/// Writes the numbers of a violation's ends, and its line in the report.
fn write_rest(alloc: Global, out: &mut Vec<u8>, violation: &Violation<'_>) -> Result<(), AllocError>
    ensures { OnOk result (out.new.items ≡ out.old.items ++ rest_of violation.now) }
{
    write_number_member(out, ",\"in_number\":", violation.safe)?;
    write_number_member(out, ",\"on_number\":", violation.exposed)?;
    write_text(alloc, out, ",\"report\":", violation.text)?;
    write_words(out, "}\n")?;
    Ok(())
}

/// Writes what a violation is, behind these words.
fn write_kind(out: &mut Vec<u8>, words: &str, kind: Kind) -> Result<(), AllocError>
    ensures { OnOk result (out.new.items ≡ out.old.items ++ words.now ++ kind_name kind) }
{
    write_words(out, words)?;
    match kind {
        Kind::Recursion => write_words(out, "recursion"),
        Kind::Inversion => write_words(out, "inversion"),
        Kind::Conflict => write_words(out, "conflict"),
        Kind::Forbidden => write_words(out, "forbidden"),
    }
}

/// Writes a state, if there is one.
fn write_state_member(out: &mut Vec<u8>, state: Option<State>) -> Result<(), AllocError>
    ensures { OnOk result (out.new.items ≡ out.old.items ++ state_member state) }
{
    let Some(state) = state else {
        return Ok(());
    };
    write_state(out, ",\"state\":\"", state)?;
    write_words(out, "\"")
}

/// Writes a number behind these words, if there is one.
fn write_number_member(
    out: &mut Vec<u8>,
    words: &str,
    number: Option<usize>,
) -> Result<(), AllocError>
    ensures { OnOk result (out.new.items ≡ out.old.items ++ number_member words.now number) }
{
    match number {
        Some(number) => write_number(out, words, number as u64),
        None => Ok(()),
    }
}

/// Writes what a violation is about.
fn write_members(
    alloc: Global,
    out: &mut Vec<u8>,
    ends: &[End<'_>],
    violation: &Violation<'_>,
) -> Result<(), AllocError>
    ensures { OnOk result (out.new.items ≡ out.old.items
        ++ kind_members ends.now violation.now violation.now.kind) }
{
    match violation.kind {
        Kind::Recursion => write_first(alloc, out, ",\"class\":", &violation.classes),
        Kind::Inversion => write_inversion(alloc, out, &violation.classes),
        Kind::Conflict => write_conflict(alloc, out, ends, violation),
        Kind::Forbidden => write_forbidden(alloc, out, ends, violation),
    }
}

/// Writes the first of these classes behind these words, if there is one.
fn write_first(
    alloc: Global,
    out: &mut Vec<u8>,
    words: &str,
    classes: &[Class<'_>],
) -> Result<(), AllocError>
    ensures { OnOk result (out.new.items ≡ out.old.items ++ first_member words.now classes.now) }
{
    match classes {
        [first, ..] => write_class(alloc, out, words, *first),
        [] => Ok(()),
    }
}

/// Writes the classes of an inversion.
fn write_inversion(
    alloc: Global,
    out: &mut Vec<u8>,
    classes: &[Class<'_>],
) -> Result<(), AllocError>
    ensures { OnOk result (out.new.items ≡ out.old.items ++ inversion_members classes.now) }
{
    match classes {
        [from, walk @ ..] => write_turned(alloc, out, *from, walk),
        [] => Ok(()),
    }
}

/// Writes the class that is held, the one that is acquired, and the path back.
fn write_turned(
    alloc: Global,
    out: &mut Vec<u8>,
    from: Class<'_>,
    walk: &[Class<'_>],
) -> Result<(), AllocError>
    ensures { OnOk result (out.new.items ≡ out.old.items
        ++ inversion_members (from.entry ∷ walk.now)) }
{
    write_class(alloc, out, ",\"from\":", from)?;
    write_first(alloc, out, ",\"to\":", walk)?;
    write_classes(alloc, out, ",\"walk\":", walk)?;
    Ok(())
}

/// Writes classes behind these words.
fn write_classes(
    alloc: Global,
    out: &mut Vec<u8>,
    words: &str,
    classes: &[Class<'_>],
) -> Result<(), AllocError>
    ensures { OnOk result (out.new.items ≡ out.old.items ++ words.now ++ listed class_json classes.now) }
{
    write_words(out, words)?;
    let [first, others @ ..] = classes else {
        return write_words(out, "[]");
    };
    write_class(alloc, out, "[", *first)?;
    for class in others {
        write_class(alloc, out, ",", *class)?;
    }
    write_words(out, "]")
}

/// Writes both ends of a conflict, which are of one class.
fn write_conflict(
    alloc: Global,
    out: &mut Vec<u8>,
    ends: &[End<'_>],
    violation: &Violation<'_>,
) -> Result<(), AllocError>
    ensures { OnOk result (out.new.items ≡ out.old.items
        ++ kind_members ends.now violation.now kinds.Conflict) }
{
    let safe = end_at(ends, violation.safe);
    let exposed = end_at(ends, violation.exposed);
    write_end(alloc, out, ",\"class\":", ",\"usage\":", ",\"in\":", safe)?;
    write_use(alloc, out, ",\"on\":", exposed)?;
    Ok(())
}

/// Writes both ends and the classes of a forbidden path.
fn write_forbidden(
    alloc: Global,
    out: &mut Vec<u8>,
    ends: &[End<'_>],
    violation: &Violation<'_>,
) -> Result<(), AllocError>
    ensures { OnOk result (out.new.items ≡ out.old.items
        ++ kind_members ends.now violation.now kinds.Forbidden) }
{
    let safe = end_at(ends, violation.safe);
    let exposed = end_at(ends, violation.exposed);
    write_end(
        alloc,
        out,
        ",\"from\":",
        ",\"from_usage\":",
        ",\"in\":",
        safe,
    )?;
    write_end(
        alloc,
        out,
        ",\"to\":",
        ",\"to_usage\":",
        ",\"on\":",
        exposed,
    )?;
    write_classes(alloc, out, ",\"walk\":", &violation.classes)?;
    Ok(())
}

/// The end at this place, if there is one.
fn end_at<'x, 'a>(ends: &'x [End<'a>], place: Option<usize>) -> Option<&'x End<'a>>
    ensures { option_copied result ≡ end_at ends.now place }
{
    ends.get(place?)
}

/// Writes an end, if there is one: its class, its usage characters and where it was first seen, each behind its words.
fn write_end(
    alloc: Global,
    out: &mut Vec<u8>,
    class: &str,
    usage: &str,
    at: &str,
    end: Option<&End<'_>>,
) -> Result<(), AllocError>
    ensures { OnOk result (out.new.items ≡ out.old.items
        ++ end_members class.now usage.now at.now (option_copied end.entry)) }
{
    let Some(end) = end else {
        return Ok(());
    };
    write_class(alloc, out, class, end.class)?;
    write_text(alloc, out, usage, &end.marks)?;
    write_at(alloc, out, at, end.seen.line.at)
}

/// Writes where an end was first seen, behind these words, if there is one.
fn write_use(
    alloc: Global,
    out: &mut Vec<u8>,
    words: &str,
    end: Option<&End<'_>>,
) -> Result<(), AllocError>
    ensures { OnOk result (out.new.items ≡ out.old.items
        ++ use_member words.now (option_copied end.entry)) }
{
    match end {
        Some(end) => write_at(alloc, out, words, end.seen.line.at),
        None => Ok(()),
    }
}
