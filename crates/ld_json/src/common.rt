//! Writes what the dependencies of an inversion have in common. Each call answers `AllocError` if memory was refused.
ghost use Rattle.std.specs.Prelude.{◌≡◌, ◌++◌, OnOk, Some};
ghost use Rattle.ld_json.specs.Json.{common_lock_json, common_member, listed};

use crate::quoted::{write_text, write_words};
use crate::seen::{write_instance, write_truth};
use ld_rows::{Common, CommonLock};
use std::alloc::{AllocError, Global};

/// Writes what they have in common, if it is anything.
pub fn write_common(
    alloc: Global,
    out: &mut Vec<u8>,
    common: &Option<Common<'_>>,
) -> Result<(), AllocError>
    ensures { OnOk result (out.new.items ≡ out.old.items ++ common_member common.now) }
{
    match common {
        Some(common) => write_some(alloc, out, common),
        None => Ok(()),
    }
}

/// Writes what they have in common.
fn write_some(alloc: Global, out: &mut Vec<u8>, common: &Common<'_>) -> Result<(), AllocError>
    ensures { OnOk result (out.new.items ≡ out.old.items ++ common_member (Some common.now)) }
{
    write_truth(out, ",\"common\":{\"one_task\":", common.is_one_task)?;
    write_locks(alloc, out, ",\"locks\":", &common.locks)?;
    write_words(out, "}")?;
    Ok(())
}

/// Writes locks behind these words.
fn write_locks(
    alloc: Global,
    out: &mut Vec<u8>,
    words: &str,
    locks: &[CommonLock<'_>],
) -> Result<(), AllocError>
    ensures { OnOk result (out.new.items ≡ out.old.items ++ words.now ++ listed common_lock_json locks.now) }
{
    write_words(out, words)?;
    let [first, others @ ..] = locks else {
        return write_words(out, "[]");
    };
    write_lock(alloc, out, "[", first)?;
    for lock in others {
        write_lock(alloc, out, ",", lock)?;
    }
    write_words(out, "]")
}

/// Writes a lock behind these words.
fn write_lock(
    alloc: Global,
    out: &mut Vec<u8>,
    words: &str,
    lock: &CommonLock<'_>,
) -> Result<(), AllocError>
    ensures { OnOk result (out.new.items ≡ out.old.items ++ words.now ++ common_lock_json lock.now) }
{
    write_words(out, words)?;
    write_text(alloc, out, "{\"name\":", lock.name)?;
    write_instance(alloc, out, lock.instance)?;
    write_truth(out, ",\"written\":", lock.is_written)?;
    write_words(out, "}")?;
    Ok(())
}
