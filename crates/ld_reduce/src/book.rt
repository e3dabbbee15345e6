//! The reduced stream of the traces that a book lists.
ghost use Rattle.std.specs.Prelude.{◌≡◌, ◌||◌, ◌==◌, ℕ, List, All, IfOk, OnOk, map, nat_eq};
ghost use Rattle.std.specs.Bool.{Decides};
ghost use Rattle.std.specs.List.{list_any};
ghost use Rattle.std.specs.List.Sorted.{IsPermutation};
ghost use Rattle.ld_trace.specs.Sources.{PlainSource};
ghost use Rattle.ld_batch.specs.Batch.{AreRising};
ghost use Rattle.ld_reduce.specs.Kept.{IsFirst};
ghost use Rattle.ld_origin.specs.Origin.{plain_home};
ghost use Rattle.ld_reduce.specs.Reduction.{IsReductionOf, is_in};
ghost use Rattle.ld_reduce.specs.Written.{IsTrace};

use crate::firsts::Firsts;
use crate::reduce::reduced;
use ld_book::{Book, Traces, UsageRow, Witness, Witnessed};
use ld_origin::Home;
use std::alloc::{AllocError, Global};

/// Notes where these dependencies were first seen.
fn note_dependencies(firsts: &mut Firsts, rows: &[Witnessed]) -> Result<(), AllocError>
    ensures { OnOk result ((number : ℕ) → list_any (nat_eq number) firsts.new
        ≡ (list_any (λ row. number == row.first.number) rows.now || list_any (nat_eq number) firsts.old)) }
{
    for row in rows {
        firsts.note(row.first)?;
    }
    Ok(())
}

/// Notes where these bits were first seen, those that were.
fn note_bits(firsts: &mut Firsts, seen: &[Option<Witness>]) -> Result<(), AllocError>
    ensures { OnOk result ((number : ℕ) → list_any (nat_eq number) firsts.new
        ≡ (list_any (is_in number) seen.now || list_any (nat_eq number) firsts.old)) }
{
    for first in seen {
        if let Some(first) = first {
            firsts.note(*first)?;
        }
    }
    Ok(())
}

/// Notes where the bits of these classes were first seen.
fn note_usage(firsts: &mut Firsts, rows: &[UsageRow]) -> Result<(), AllocError>
    ensures { OnOk result ((number : ℕ) → list_any (nat_eq number) firsts.new
        ≡ (list_any (λ row. list_any (is_in number) row.first) rows.now || list_any (nat_eq number) firsts.old)) }
{
    for row in rows {
        note_bits(firsts, &row.first)?;
    }
    Ok(())
}

/// The numbers of the traces of a book in which a dependency, or a usage bit of a class, was first seen.
fn firsts_of(alloc: Global, book: &Book<'_>) -> Result<Firsts, AllocError>
    ensures { IfOk result (λ firsts. (number : ℕ) →
        Decides (list_any (nat_eq number) firsts) (IsFirst book.now number)) }
{
    let mut firsts = Firsts::new(alloc);
    note_dependencies(&mut firsts, book.dependencies())?;
    // The rows are those of all classes that have a bit.
    let _ = book.classes();
    note_usage(&mut firsts, book.usage_rows())?;
    Ok(firsts)
}

/// The stream of those traces that a book lists in which a dependency, or a usage bit of a class, was first
/// seen, whole and in the order of their numbers; and of the refused ones too, where these are to be kept.
/// The last line has its LF. A trace that doesn't say where it comes from gets a line that does, if there is a home for
/// its number.
///
/// # Errors
///
/// `AllocError` where a growth of memory was refused.
pub fn reduction(
    alloc: Global,
    book: &Book<'_>,
    keep_refused: bool,
    homes: &[Home<'_>],
) -> Result<Vec<u8>, AllocError>
    requires { All IsTrace book.now }
    ensures { IfOk result (λ text. (in_order : List PlainSource) × IsPermutation book.now in_order
        × AreRising in_order × IsReductionOf keep_refused (map plain_home homes.now) in_order text.items) }
{
    let firsts = firsts_of(alloc, book)?;
    // Each of them has its header's line before its own.
    let _ = book.listed();
    let traces = Traces::new(alloc, book)?;
    reduced(alloc, traces.listed(), &firsts, keep_refused, homes)
}
