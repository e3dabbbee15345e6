//! Writes ends of conflicts and of forbidden paths, dependencies and groups. Each call answers `AllocError` if memory
//! was refused.
ghost use Rattle.std.specs.Prelude.{◌≡◌, ◌++◌, OnOk, Some, codes, decimal};
ghost use Rattle.ld_json.specs.Json.{dependency_line, end_line, group_line, listed};
ghost use Rattle.ld_json.specs.Json.{shared_member, use_name};

use crate::places::write_class;
use crate::quoted::{write_number, write_text, write_words};
use crate::seen::{write_seen, write_since, write_state};
use ld_rows::{Dependency, End, Group, Shared, Use};
use std::alloc::{AllocError, Global};

/// Writes the line of a dependency.
pub fn write_dependency(
    alloc: Global,
    out: &mut Vec<u8>,
    number: u64,
    dependency: &Dependency<'_>,
) -> Result<(), AllocError>
    ensures { OnOk result (out.new.items ≡ out.old.items ++ dependency_line number dependency.now) }
{
    write_number(out, "{\"kind\":\"dependency\",\"number\":", number)?;
    write_class(alloc, out, ",\"from\":", dependency.from)?;
    write_class(alloc, out, ",\"to\":", dependency.to)?;
    write_seen(alloc, out, &dependency.seen)?;
    write_words(out, "}\n")?;
    Ok(())
}

/// Writes the line of an end.
pub fn write_end(
    alloc: Global,
    out: &mut Vec<u8>,
    number: u64,
    end: &End<'_>,
) -> Result<(), AllocError>
    ensures { OnOk result (out.new.items ≡ out.old.items ++ end_line number end.now) }
{
    write_number(out, "{\"kind\":\"usage\",\"number\":", number)?;
    write_state(out, ",\"state\":\"", end.state)?;
    write_class(alloc, out, "\",\"class\":", end.class)?;
    write_use_name(out, ",\"use\":\"", end.used)?;
    write_text(alloc, out, "\",\"usage\":", &end.marks)?;
    write_seen(alloc, out, &end.seen)?;
    write_since(alloc, out, ",\"hard\":", &end.hard)?;
    write_since(alloc, out, ",\"soft\":", &end.soft)?;
    write_words(out, "}\n")?;
    Ok(())
}

/// Writes how a class is used at an end, behind these words.
fn write_use_name(out: &mut Vec<u8>, words: &str, used: Use) -> Result<(), AllocError>
    ensures { OnOk result (out.new.items ≡ out.old.items ++ words.now ++ use_name used) }
{
    write_words(out, words)?;
    match used {
        Use::Safe => write_words(out, "in"),
        Use::Exposed => write_words(out, "on"),
    }
}

/// Writes the line of a group.
pub fn write_group(out: &mut Vec<u8>, number: u64, group: &Group) -> Result<(), AllocError>
    ensures { OnOk result (out.new.items ≡ out.old.items ++ group_line number group.now) }
{
    write_number(out, "{\"kind\":\"group\",\"number\":", number)?;
    write_numbers(out, ",\"violations\":", &group.violations)?;
    write_shared(out, group.most)?;
    write_words(out, "}\n")?;
    Ok(())
}

/// Writes which dependency most violations of a group have.
fn write_shared(out: &mut Vec<u8>, most: Option<Shared>) -> Result<(), AllocError>
    ensures { OnOk result (out.new.items ≡ out.old.items ++ shared_member most) }
{
    match most {
        Some(shared) => write_most(out, shared),
        None => Ok(()),
    }
}

/// Writes a dependency, and how many violations of a group have it.
fn write_most(out: &mut Vec<u8>, shared: Shared) -> Result<(), AllocError>
    ensures { OnOk result (out.new.items ≡ out.old.items ++ shared_member (Some shared)) }
{
    write_number(out, ",\"most\":{\"dependency\":", shared.dependency as u64)?;
    write_number(out, ",\"violations\":", shared.violations)?;
    write_words(out, "}")?;
    Ok(())
}

/// Writes numbers behind these words.
pub fn write_numbers(out: &mut Vec<u8>, words: &str, numbers: &[usize]) -> Result<(), AllocError>
    ensures { OnOk result (out.new.items ≡ out.old.items ++ words.now ++ listed decimal numbers.now) }
{
    write_words(out, words)?;
    let [first, others @ ..] = numbers else {
        return write_words(out, "[]");
    };
    write_number(out, "[", *first as u64)?;
    for number in others {
        write_number(out, ",", *number as u64)?;
    }
    write_words(out, "]")
}
