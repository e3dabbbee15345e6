//! Usage of the classes over all traces.
ghost use Rattle.std.specs.Prelude.{◌≡◌, ℕ, ◌+◌, ◌<◌, ◌≤◌, List, [], All, None, Option, true, false};
ghost use Rattle.std.specs.Prelude.{length, slice_index_or, vec_len, vec_capacity};
ghost use Rattle.std.specs.Bool.{OnFalse, OnTrue};
ghost use Rattle.std.specs.List.{position_or_len};
ghost use Rattle.ld_class.specs.Names.{AreDistinct, PlainClass, no_class};
ghost use Rattle.ld_class.specs.Usage.{either, has_bit};
ghost use Rattle.ld_rules.specs.Union.{earlier, use_witness};
ghost use Rattle.ld_rules.specs.Usage.{Bit, IsBit, Use, bit_of, same_bit};
ghost use Rattle.ld_batch.specs.Batch.{first_since};
ghost use Rattle.ld_batch.specs.Inner.Names.{AreThere};
ghost use Rattle.ld_union.specs.Inner.Delta.{TellsBits};
ghost use Rattle.ld_union.specs.Inner.Seen.{first_in};
ghost use Rattle.ld_union.specs.Inner.Union.{AreUsed, with_bit, with_first, with_first_use};
ghost use Rattle.ld_union.specs.Usage.{bits, bits_of, row_of};

use crate::delta::NewBit;
use bitflags::Flags;
use ld_batch::{Hints, Shown, place_in};
use ld_class::{Classes, Usage};
use ld_rules::Witness;

/// The usage of a class, over all traces.
#[derive(Clone, Copy, Debug, PartialEq, Eq)]
pub struct UsageRow {
    /// The bits that traces show.
    pub bits: Usage,
    /// Where each bit was first seen, in the order of the bits: IN_HARD, ON_HARD, IN_SOFT, ON_SOFT.
    pub first: [Option<Witness>; 4],
}

impl UsageRow {
    /// The row of a class none of whose bits was seen.
    pub(crate) fn unused() -> UsageRow
        ensures { result ≡ row_of (λ _. None) }
    {
        UsageRow {
            bits: Usage::empty(),
            first: [None; 4],
        }
    }

    /// Notes that the bit was seen there, unless it was seen earlier, and answers whether it is new.
    pub(crate) fn note(&mut self, bit: Usage, witness: Witness) -> bool
        requires { IsBit bit }
        ensures noted { (first : Bit → Option Witness) → self.old ≡ row_of first
            → self.new ≡ row_of (with_bit first (bit_of bit) witness) }
        ensures bits { self.new.bits ≡ either self.old.bits bit }
        ensures new { OnTrue result (has_bit self.old.bits bit ≡ false) }
        ensures known { OnFalse result (has_bit self.old.bits bit ≡ true) }
    {
        let known = self.bits.contains(bit);
        let place = place_of(bit);
        let earliest = match self.first[place] {
            Some(known) => first_of(known, witness),
            None => witness,
        };
        self.first[place] = Some(earliest);
        self.bits |= bit;
        !known
    }

    /// Where the bit was first seen, or `None` where the class doesn't have it.
    pub fn witness(&self, bit: Usage) -> Option<Witness>
        requires { IsBit bit }
        ensures first { (first : Bit → Option Witness) → self.now ≡ row_of first
            → result ≡ first (bit_of bit) }
        ensures at { result ≡ first_in self.now (bit_of bit) }
    {
        self.first[place_of(bit)]
    }
}

/// The first of the two. Mostly the numbers of the traces tell it.
fn first_of(known: Witness, witness: Witness) -> Witness
    ensures { result ≡ earlier known witness }
{
    if known.number < witness.number {
        return known;
    }
    known.earlier(witness)
}

/// The place of a bit's witness in a row.
fn place_of(bit: Usage) -> usize
    requires { IsBit bit }
    ensures { result ≡ position_or_len (same_bit (bit_of bit)) bits }
{
    bit.bits().trailing_zeros() as usize
}

/// Notes the usage of a batch whose classes are among these names, each bit of a class where it was seen
/// first, those that no source behind it shows, and tells the bits that are new.
pub(crate) fn add_usage(
    rows: &mut [UsageRow],
    batch: &Shown<'_, '_>,
    names: &Classes<'_>,
    hints: &mut Hints,
    bits: &mut Vec<NewBit>,
)
    requires count { length names.now ≡ length rows.old }
    requires there { AreThere names.now batch.now.classes }
    requires none { bits.old.items ≡ [] }
    requires room { vec_len bits.old + length batch.now.usage ≤ vec_capacity bits.old }
    ensures len { length rows.new ≡ length rows.old }
    ensures used { AreDistinct names.now
        → (first : Use → Option Witness) → AreUsed names.now rows.old first
        → AreUsed names.now rows.new (with_first first
        (first_since use_witness batch.now.behind batch.now.sources)) }
    ensures told { TellsBits (bits_of rows.old) (bits_of rows.new) bits.new.items }
{
    for seen in batch.usage() {
        let number = batch.class_number(seen.class);
        let class = place_in(names, batch.classes(), seen.class, number, hints);
        let shown = NewBit {
            class,
            bit: seen.bit,
        };
        note_use(rows, shown, seen.witness, bits);
    }
}

/// Notes that the bit of the class was seen there, unless it was seen earlier, and tells it where it is
/// new.
fn note_use(rows: &mut [UsageRow], shown: NewBit, witness: Witness, bits: &mut Vec<NewBit>)
    requires class { shown.class < length rows.old }
    requires bit { IsBit shown.bit }
    requires room { vec_len bits.old < vec_capacity bits.old }
    ensures len { length rows.new ≡ length rows.old }
    ensures room { (n : ℕ) → vec_len bits.old + (n + 1) ≤ vec_capacity bits.old
        → vec_len bits.new + n ≤ vec_capacity bits.new }
    ensures used { (classes : List PlainClass) → AreDistinct classes
        → (first : Use → Option Witness) → AreUsed classes rows.old first
        → AreUsed classes rows.new (with_first_use first
        (record { class = slice_index_or classes shown.class no_class; bit = bit_of shown.bit }) witness) }
    ensures told { (before : List Usage) → TellsBits before (bits_of rows.old) bits.old.items
        → TellsBits before (bits_of rows.new) bits.new.items }
{
    if rows[shown.class as usize].note(shown.bit, witness) {
        bits.push_reserved(shown);
    }
}
