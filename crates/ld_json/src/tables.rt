//! Writes rows one after another, each with its number. Each call answers `AllocError` if memory was refused.
ghost use Rattle.std.specs.Prelude.{◌≡◌, ◌++◌, OnOk, decimal, flat_map};
ghost use Rattle.ld_json.specs.Json.{dependency_line, end_line, group_line, numbered};
ghost use Rattle.ld_json.specs.Json.{refused_line, totals_line, violation_line};

use crate::ends::{write_dependency, write_end, write_group};
use crate::places::{write_at, write_said};
use crate::quoted::{write_number, write_text, write_words};
use crate::violations::write_violation;
use ld_rows::{Dependency, End, Group, Refused, Totals, Violation};
use std::alloc::{AllocError, Global};

/// Writes how much the traces are and show.
pub fn write_totals(out: &mut Vec<u8>, totals: Totals) -> Result<(), AllocError>
    ensures { OnOk result (out.new.items ≡ out.old.items ++ totals_line totals) }
{
    write_number(
        out,
        "{\"kind\":\"traces\",\"version\":1,\"traces\":",
        totals.traces,
    )?;
    write_number(out, ",\"refused\":", totals.refused)?;
    write_number(out, ",\"events\":", totals.events)?;
    write_number(out, ",\"classes\":", totals.classes)?;
    write_number(out, ",\"dependencies\":", totals.dependencies)?;
    write_words(out, "}\n")?;
    Ok(())
}

/// Writes why traces were refused.
pub fn write_all_refused(
    alloc: Global,
    out: &mut Vec<u8>,
    all: &[Refused<'_>],
) -> Result<(), AllocError>
    ensures { OnOk result (out.new.items ≡ out.old.items ++ flat_map refused_line all.now) }
{
    for refused in all {
        write_refused(alloc, out, refused)?;
    }
    Ok(())
}

/// Writes why a trace was refused.
fn write_refused(alloc: Global, out: &mut Vec<u8>, refused: &Refused<'_>) -> Result<(), AllocError>
    ensures { OnOk result (out.new.items ≡ out.old.items ++ refused_line refused.now) }
{
    write_at(alloc, out, "{\"kind\":\"refused\",\"at\":", refused.line.at)?;
    write_text(alloc, out, ",\"fault\":", refused.fault.as_bytes())?;
    write_said(alloc, out, &refused.line)?;
    write_words(out, "}\n")?;
    Ok(())
}

/// Writes dependencies.
pub fn write_dependencies(
    alloc: Global,
    out: &mut Vec<u8>,
    all: &[Dependency<'_>],
) -> Result<(), AllocError>
    ensures { OnOk result (out.new.items ≡ out.old.items ++ numbered dependency_line 0 all.now) }
{
    for place in 0..all.len() {
        write_dependency(alloc, out, place as u64, &all[place])?;
    }
    Ok(())
}

/// Writes ends.
pub fn write_ends(alloc: Global, out: &mut Vec<u8>, all: &[End<'_>]) -> Result<(), AllocError>
    ensures { OnOk result (out.new.items ≡ out.old.items ++ numbered end_line 0 all.now) }
{
    for place in 0..all.len() {
        write_end(alloc, out, place as u64, &all[place])?;
    }
    Ok(())
}

/// Writes violations, whose ends stand at their places in these.
pub fn write_violations(
    alloc: Global,
    out: &mut Vec<u8>,
    ends: &[End<'_>],
    all: &[Violation<'_>],
) -> Result<(), AllocError>
    ensures { OnOk result (out.new.items ≡ out.old.items
        ++ numbered (violation_line ends.now) 0 all.now) }
{
    for place in 0..all.len() {
        write_violation(alloc, out, ends, place as u64, &all[place])?;
    }
    Ok(())
}

/// Writes groups.
pub fn write_groups(out: &mut Vec<u8>, all: &[Group]) -> Result<(), AllocError>
    ensures { OnOk result (out.new.items ≡ out.old.items ++ numbered group_line 0 all.now) }
{
    for place in 0..all.len() {
        write_group(out, place as u64, &all[place])?;
    }
    Ok(())
}
