//! The rows of a batch: names, dependencies and usage bits of its traces.
ghost use Rattle.std.specs.Prelude.{◌≡◌, ◌+◌, ◌<◌, ◌≤◌, ◌++◌, [], All, List, OnErr, OnOk, drop, length, map, take, nat_eq, slice_index_or, true, vec_len, vec_capacity};
ghost use Rattle.ld_class.specs.Names.{AreDistinct, PlainClass, no_class, with_name};
ghost use Rattle.ld_class.specs.declared.names.TheConstants.{MOST_NAMES};
ghost use Rattle.ld_facts.specs.Inner.Kept.{AreNames};
ghost use Rattle.ld_batch.specs.Inner.Names.{with_names};
ghost use Rattle.ld_facts.specs.Inner.Rows.{IsOwnEdge, IsOwnUse, IsOwnWord, edge_of, edges_at, use_of, word_of};
ghost use Rattle.std.specs.List.{list_any};
ghost use Rattle.ld_facts.specs.Inner.Scan.{names_at};

use crate::scan::Scan;
use ld_batch::{WitnessedUse, WitnessedWord};
use ld_class::{ClassList, Classes};
use ld_rules::Witness;
use ld_tables::{NewEdges, SparseSet, UsageFact};
use std::alloc::{AllocError, Global};

/// What the traces of a batch show, with the numbers that its scan has for their classes.
#[derive(Drop)]
pub(crate) struct BatchRows<'a> {
    /// The classes, in order of first acquisition.
    pub(crate) classes: ClassList<'a>,
    /// The numbers that the scan has for them, in the same order.
    pub(crate) numbers: SparseSet,
    /// The dependencies of the scan, with the numbers of the traces that told them first.
    pub(crate) words: Vec<WitnessedWord>,
    /// Its usage bits, by the places of the classes, with the numbers of the traces that showed them first.
    pub(crate) usage: Vec<WitnessedUse>,
}

impl<'a> BatchRows<'a> {
    /// Nothing. Takes no memory.
    pub(crate) fn new(alloc: Global) -> BatchRows<'a>
        ensures classes { result.classes ≡ [] }
        ensures numbers { result.numbers ≡ [] }
        ensures words { result.words.items ≡ [] }
        ensures usage { result.usage.items ≡ [] }
    {
        BatchRows {
            classes: ClassList::new(alloc),
            numbers: SparseSet::new(alloc),
            words: Vec::new(alloc),
            usage: Vec::new(alloc),
        }
    }

    /// Takes all away. The memory stays.
    pub(crate) fn clear(&mut self)
        ensures classes { self.new.classes ≡ [] }
        ensures numbers { self.new.numbers ≡ [] }
        ensures words { self.new.words.items ≡ [] }
        ensures usage { self.new.usage.items ≡ [] }
    {
        self.classes.cut(0);
        self.numbers.clear();
        self.words.clear();
        self.usage.clear();
    }

    /// Adds what the scan has more than was added before, which the trace of this number told, with
    /// its classes.
    ///
    /// `AllocError` where memory was refused. Nothing has changed then but spare memory.
    pub(crate) fn add(&mut self, scan: &Scan<'a>, number: u64) -> Result<(), AllocError>
        requires room { length self.old.classes + length scan.now.own ≤ MOST_NAMES }
        requires few { length scan.now.classes ≤ MOST_NAMES }
        requires distinct { AreDistinct scan.now.classes }
        requires names { AreNames scan.now.classes self.old.numbers self.old.classes }
        requires own { All (λ n. n < length scan.now.classes) scan.now.own }
        requires so_far { length (edges_at self.old.numbers self.old.words.items) ≡ length scan.now.locks.before }
        requires own_words { All (IsOwnWord self.old.numbers) self.old.words.items }
        requires more_uses { length self.old.usage.items ≤ length scan.now.uses }
        requires own_edges { All (IsOwnEdge scan.now.own)
            (drop (length (edges_at self.old.numbers self.old.words.items)) scan.now.locks.edges) }
        requires own_uses { All (IsOwnUse scan.now.own)
            (drop (length self.old.usage.items) scan.now.uses) }
        ensures classes { OnOk result ((own : List PlainClass) → AreNames scan.now.classes scan.now.own own
            → self.new.classes ≡ with_names self.old.classes own) }
        ensures names { OnOk result (AreNames scan.now.classes self.new.numbers self.new.classes) }
        ensures edges { OnOk result (edges_at self.new.numbers self.new.words.items
            ≡ edges_at self.old.numbers self.old.words.items
            ++ map (edge_of self.new.numbers number)
            (drop (length (edges_at self.old.numbers self.old.words.items)) scan.now.locks.edges)) }
        ensures own_words { OnOk result (All (IsOwnWord self.new.numbers) self.new.words.items) }
        ensures words { OnOk result (take (length self.old.words.items) self.new.words.items ≡ self.old.words.items) }
        ensures front { OnOk result (take (length self.old.numbers) self.new.numbers ≡ self.old.numbers) }
        ensures usage { OnOk result (self.new.usage.items ≡ self.old.usage.items
            ++ map (use_of self.new.numbers number)
            (drop (length self.old.usage.items) scan.now.uses)) }
        ensures own_edges { OnOk result (All (IsOwnEdge self.new.numbers)
            (drop (length (edges_at self.old.numbers self.old.words.items)) scan.now.locks.edges)) }
        ensures own_uses { OnOk result (All (IsOwnUse self.new.numbers)
            (drop (length self.old.usage.items) scan.now.uses)) }
        ensures refused { OnErr result ((self.new.classes ≡ self.old.classes)
            × (self.new.numbers ≡ self.old.numbers)
            × (self.new.words.items ≡ self.old.words.items)
            × (self.new.usage.items ≡ self.old.usage.items)) }
    {
        let told = scan.locks.told_here();
        let uses = &scan.uses.as_slice()[self.usage.len()..];
        self.words.reserve(told.len())?;
        self.usage.reserve(uses.len())?;
        add_named(
            &mut self.classes,
            &mut self.numbers,
            &scan.classes,
            scan.own.as_slice(),
        )?;
        // From here on nothing is refused.
        add_edges(&mut self.words, told, number);
        add_uses(&mut self.usage, uses, number, &self.numbers);
        Ok(())
    }
}

/// Adds the names that these numbers stand for among the known ones, where they aren't there yet, and
/// their numbers beside them.
///
/// `AllocError` where memory was refused. Names and numbers are then as before.
pub(crate) fn add_named<'a>(
    names: &mut ClassList<'a>,
    numbers: &mut SparseSet,
    known: &Classes<'a>,
    own: &[u32],
) -> Result<(), AllocError>
    requires room { length names.old + length own.now ≤ MOST_NAMES }
    requires few { length known.now ≤ MOST_NAMES }
    requires distinct { AreDistinct known.now }
    requires names { AreNames known.now numbers.old names.old }
    requires own { All (λ n. n < length known.now) own.now }
    ensures names { OnOk result (names.new ≡ with_names names.old (names_at known.now own.now)) }
    ensures same { OnOk result (AreNames known.now numbers.new names.new) }
    ensures there { OnOk result (All (λ n. list_any (nat_eq n) numbers.new ≡ true) own.now) }
    ensures front { OnOk result (take (length numbers.old) numbers.new ≡ numbers.old) }
    ensures refused { OnErr result ((names.new ≡ names.old) × (numbers.new ≡ numbers.old)) }
{
    let before = names.len();
    for number in own {
        let Ok(()) = add_one(names, numbers, known, *number) else {
            names.cut(before);
            numbers.cut(before);
            return Err(AllocError);
        };
    }
    Ok(())
}

/// Adds the name that this number stands for, where it isn't there yet.
///
/// `AllocError` where memory was refused. What was there stands first in names and numbers then.
fn add_one<'a>(
    names: &mut ClassList<'a>,
    numbers: &mut SparseSet,
    known: &Classes<'a>,
    number: u32,
) -> Result<(), AllocError>
    requires room { length names.old < MOST_NAMES }
    requires few { length known.now ≤ MOST_NAMES }
    requires distinct { AreDistinct known.now }
    requires names { AreNames known.now numbers.old names.old }
    requires within { number < length known.now }
    ensures names { OnOk result
        (names.new ≡ with_name names.old (slice_index_or known.now number no_class)) }
    ensures same { OnOk result (AreNames known.now numbers.new names.new) }
    ensures there { OnOk result (list_any (nat_eq number) numbers.new ≡ true) }
    ensures front { take (length numbers.old) numbers.new ≡ numbers.old }
    ensures first { take (length names.old) names.new ≡ names.old }
{
    if numbers.has(number) {
        return Ok(());
    }
    names.push(known.name(number))?;
    numbers.add(number)
}

/// Adds the dependencies that the trace of this number told first.
pub(crate) fn add_edges(words: &mut Vec<WitnessedWord>, tellings: &[NewEdges], number: u64)
    requires { vec_len words.old + length tellings.now ≤ vec_capacity words.old }
    ensures { words.new.items ≡ words.old.items ++ map (word_of number) tellings.now }
{
    for telling in tellings {
        let line = telling.line;
        let word = WitnessedWord {
            number: telling.number,
            block: telling.word.block,
            to: telling.word.to,
            bits: telling.bits,
            witness: Witness { number, line },
        };
        words.push_reserved(word);
    }
}

/// Adds the usage bits that the trace of this number told first, by the places that their classes have
/// among the numbers.
pub(crate) fn add_uses(
    rows: &mut Vec<WitnessedUse>,
    facts: &[UsageFact],
    number: u64,
    numbers: &SparseSet,
)
    requires room { vec_len rows.old + length facts.now ≤ vec_capacity rows.old }
    requires few { length numbers.now ≤ MOST_NAMES }
    requires own { All (IsOwnUse numbers.now) facts.now }
    ensures { rows.new.items ≡ rows.old.items ++ map (use_of numbers.now number) facts.now }
{
    for fact in facts {
        let line = fact.line;
        let class = numbers.place(fact.class);
        let used = WitnessedUse {
            class,
            bit: fact.bit,
            witness: Witness { number, line },
        };
        rows.push_reserved(used);
    }
}
