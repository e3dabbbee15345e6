//! What an event tells: the part of a line behind its columns.
ghost use Rattle.std.specs.Prelude.{◌≡◌, ◌++◌, OnOk};
ghost use Rattle.ld_kernel.specs.Events.{plain_acquire, plain_stock, plain_what};
ghost use Rattle.ld_printed.specs.Printed.{acquire_text, begin_text, end_text, held_text, mode_text, stock_release_text, stock_text, what_text, words_if};

use crate::words::{write_bit, write_hex, write_number, write_signed, write_words};
use ld_kernel::{Acquire, Mode, StepBegin, StepEnd, StockAcquire, What};
use std::alloc::AllocError;

/// Writes how many locks lockdep has, if it is told.
fn write_held(out: &mut Vec<u8>, held: Option<u8>) -> Result<(), AllocError>
    ensures { OnOk result (out.new.items ≡ out.old.items ++ held_text held) }
{
    match held {
        Some(held) => write_number(out, " h=", held as u64),
        None => Ok(()),
    }
}

/// What tells who acquires.
fn mode_words(mode: Mode) -> &'static str
    ensures { result.now ≡ mode_text mode }
{
    match mode {
        Mode::Writer => " r=0",
        Mode::Reader => " r=1",
        Mode::Recursive => " r=2",
    }
}

/// These words, or none.
fn words_if(words: &'static str, is_so: bool) -> &'static str
    ensures { result.now ≡ words_if words.entry.now is_so }
{
    if is_so { words } else { "" }
}

/// Writes an acquisition, as the module's event tells it.
fn write_acquire(out: &mut Vec<u8>, acquire: &Acquire<'_>) -> Result<(), AllocError>
    ensures { OnOk result (out.new.items ≡ out.old.items ++ acquire_text (plain_acquire acquire.now)) }
{
    write_hex(out, "acquire: ", acquire.lock)?;
    write_hex(out, " k=", acquire.key)?;
    write_number(out, " s=", acquire.subclass as u64)?;
    write_bit(out, " t=", acquire.is_trylock)?;
    write_words(out, mode_words(acquire.mode))?;
    write_bit(out, " c=", acquire.is_checked)?;
    write_hex(out, " n=", acquire.nest)?;
    write_held(out, acquire.held)?;
    write_hex(out, " y=", acquire.key)?;
    write_hex(out, " i=", acquire.caller)?;
    write_words(out, " ")?;
    out.extend_from_slice(acquire.name)?;
    Ok(())
}

/// Writes an acquisition, as the kernel's own event tells it.
fn write_stock(out: &mut Vec<u8>, acquire: &StockAcquire<'_>) -> Result<(), AllocError>
    ensures { OnOk result (out.new.items ≡ out.old.items ++ stock_text (plain_stock acquire.now)) }
{
    write_hex(out, "lock_acquire: ", acquire.lock)?;
    write_words(out, words_if(" try", acquire.is_trylock))?;
    write_words(out, words_if(" read", acquire.is_read))?;
    write_words(out, " ")?;
    out.extend_from_slice(acquire.name)?;
    Ok(())
}

/// Writes a release, as the kernel's own event tells it.
fn write_stock_release(out: &mut Vec<u8>, lock: u64) -> Result<(), AllocError>
    ensures { OnOk result (out.new.items ≡ out.old.items ++ stock_release_text lock) }
{
    write_hex(out, "lock_release: ", lock)?;
    write_words(out, " ?")?;
    Ok(())
}

/// Writes the begin of a step of a processor.
fn write_begin(out: &mut Vec<u8>, step: &StepBegin) -> Result<(), AllocError>
    ensures { OnOk result (out.new.items ≡ out.old.items ++ begin_text step.now) }
{
    write_number(out, "cpuhp_enter: cpu: ", step.processor as u64)?;
    write_signed(out, " target: 0 step: ", step.step)?;
    write_hex(out, " (", step.function)?;
    write_words(out, ")")?;
    Ok(())
}

/// Writes the end of a step of a processor.
fn write_end(out: &mut Vec<u8>, step: &StepEnd) -> Result<(), AllocError>
    ensures { OnOk result (out.new.items ≡ out.old.items ++ end_text step.now) }
{
    write_number(out, "cpuhp_exit: cpu: ", step.processor as u64)?;
    write_signed(out, " state: 0 step: ", step.step)?;
    write_signed(out, " ret: ", step.status)?;
    Ok(())
}

/// Writes what an event tells.
pub(crate) fn write_what(out: &mut Vec<u8>, what: &What<'_>) -> Result<(), AllocError>
    ensures { OnOk result (out.new.items ≡ out.old.items ++ what_text (plain_what what.now)) }
{
    match what {
        What::Acquire(acquire) => write_acquire(out, acquire),
        What::Release(release) => write_hex(out, "release: ", release.lock),
        What::StockAcquire(acquire) => write_stock(out, acquire),
        What::StockRelease(release) => write_stock_release(out, release.lock),
        What::IrqEnable => write_words(out, "irq_enable: caller=? parent=?"),
        What::IrqDisable => write_words(out, "irq_disable: caller=? parent=?"),
        What::StepBegin(step) => write_begin(out, step),
        What::StepEnd(step) => write_end(out, step),
        What::Other => write_words(out, "other: "),
    }
}
