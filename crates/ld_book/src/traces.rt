//! The traces of a book, in the order of their numbers.
ghost use Rattle.std.specs.Prelude.{◌≡◌, ◌↔◌, IfOk, IsTrue};
ghost use Rattle.std.specs.Cow.{cow_slice_items};
ghost use Rattle.std.specs.List.Sorted.{IsNonDecreasingBy, IsPermutation};
ghost use Rattle.ld_batch.specs.Batch.{AreOutcomes, AreRising, sources_of};

use crate::book::Book;
use ld_facts::Listed;
use std::alloc::{AllocError, Global};
use std::borrow::CowSlice;
use std::marker::Model;

/// The traces that a book lists, seen as the list of them, in the order of their numbers.
#[derive(Drop)]
pub struct Traces<'b, 'a> {
    /// Those of the book itself, where they came in order.
    listed: CowSlice<'b, Listed<'a>>,
}

impl<'b, 'a> Model for Traces<'b, 'a> {
    ghost use Rattle.std.specs.Prelude.{List};
    ghost use Rattle.ld_trace.specs.Sources.{PlainSource};

    ghost Value = { List PlainSource };

    ghost use Rattle.ld_batch.specs.Batch.{AreOutcomes, AreRising, sources_of};
    ghost use Rattle.std.specs.Cow.{cow_slice_items};

    ghost view = { λ t. sources_of (cow_slice_items t.listed) };

    ghost invariant = { λ t. AreOutcomes (cow_slice_items t.listed)
        × AreRising (sources_of (cow_slice_items t.listed)) };
}

impl<'b, 'a> Traces<'b, 'a> {
    /// Those of this book. Takes memory only where they came in another order.
    ///
    /// # Errors
    ///
    /// `AllocError` where memory was refused.
    pub fn new(alloc: Global, book: &'b Book<'a>) -> Result<Traces<'b, 'a>, AllocError>
        ensures same { IfOk result (λ traces. IsPermutation book.now traces) }
        ensures rising { IfOk result (λ traces. AreRising traces) }
    {
        let listed = in_order(alloc, book.listed())?;
        Ok(Traces { listed })
    }

    /// The traces with their outcomes, the least number first. Takes no memory.
    pub fn listed(&self) -> &[Listed<'a>]
        ensures sources { sources_of result.now ≡ self.now }
        ensures outcomes { AreOutcomes result.now }
        ensures rising { AreRising self.now }
    {
        self.listed.as_slice()
    }
}

/// These in the order of their numbers. Takes memory only where they stand in another one.
fn in_order<'b, 'a>(
    alloc: Global,
    listed: &'b [Listed<'a>],
) -> Result<CowSlice<'b, Listed<'a>>, AllocError>
    ensures permutation { IfOk result (λ traces. IsPermutation listed.now (cow_slice_items traces)) }
    ensures sorted { IfOk result (λ traces. IsNonDecreasingBy (λ trace. trace.source.number)
        (cow_slice_items traces)) }
{
    if are_in_order(listed) {
        return Ok(CowSlice::Borrowed(listed));
    }
    let mut sorted = listed.to_vec(alloc)?;
    sort(&mut sorted);
    Ok(CowSlice::Owned(sorted))
}

/// Puts these in the order of their numbers.
fn sort(listed: &mut [Listed<'_>])
    ensures permutation { IsPermutation listed.old listed.new }
    ensures sorted { IsNonDecreasingBy (λ trace. trace.source.number) listed.new }
{
    put_in_place(listed);
    if !are_in_order(listed) {
        listed.sort_unstable_by_key(|trace| trace.source.number);
    }
}

/// Puts these in another order: each at the place of its number, where their numbers are those below their count, as
/// those of a whole stream are. Each swap puts one for good, so there are no more swaps than traces.
fn put_in_place(listed: &mut [Listed<'_>])
    ensures { IsPermutation listed.old listed.new }
{
    for place in 0..listed.len() {
        for _ in place..listed.len() {
            let own = listed[place].source.number as usize;
            if own == place || own >= listed.len() {
                break;
            }
            listed.swap(place, own);
        }
    }
}

/// Whether the numbers of these don't fall.
fn are_in_order(listed: &[Listed<'_>]) -> bool
    ensures { IsTrue result ↔ IsNonDecreasingBy (λ trace. trace.source.number) listed.now }
{
    for place in 1..listed.len() {
        if listed[place].source.number < listed[place - 1].source.number {
            return false;
        }
    }
    true
}
