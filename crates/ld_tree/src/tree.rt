//! A search from one class to its successors, in their order, by which each found class has its shown walk.
ghost use Rattle.std.specs.Prelude.{◌≡◌, ◌+◌, ◌<◌, ◌≤◌, ℕ, [], None, Contains, IfOk, OnOk, count_by, is_none, length, slice_index_or};
ghost use Rattle.ld_graph.specs.Touched.{AreTouched};
ghost use Rattle.ld_graph.specs.Edges.{ComesBefore};
ghost use Rattle.ld_graph.specs.Lists.{IsNear, list_at};
ghost use Rattle.ld_graph.specs.Walks.{IsShownWalk};
ghost use Rattle.ld_tree.specs.Inner.{IsPart};
ghost use Rattle.ld_tree.specs.Trees.{AreInOrder, IsTreeOf, class_at_place};

use crate::leading::Leading;
use std::alloc::{AllocError, Global};
use std::marker::Model;

/// What a search from one class has found: each class with the place of the one from which it was found. The class
/// at which the search begins is at place 0, and what was found as number `n`, from 0 on, at place `n + 1`.
#[derive(Drop)]
pub struct Tree {
    found: Vec<u32>,
    from: Vec<usize>,
    /// As which number each class was found.
    numbers: Vec<Option<usize>>,
}

impl Model for Tree {
    ghost use Rattle.ld_tree.specs.Trees.{PlainTree};
    ghost use Rattle.ld_graph.specs.Touched.{AreTouched};

    ghost Value = { PlainTree };

    ghost view = { λ t. record { found = t.found.items; from = t.from.items; numbers = t.numbers.items } };

    ghost invariant = { λ t. AreTouched t.numbers.items t.found.items };
}

impl Tree {
    /// Nothing is found yet, of so many classes.
    ///
    /// # Errors
    ///
    /// `AllocError` where memory was refused.
    pub fn new(alloc: Global, classes: usize) -> Result<Tree, AllocError>
        ensures { IfOk result (λ tree. length tree.numbers ≡ classes) }
    {
        Ok(Tree {
            found: Vec::new(alloc),
            from: Vec::new(alloc),
            numbers: vec![in alloc; None; classes]?,
        })
    }

    /// The classes that were found, in the order in which they were. Takes no memory.
    pub fn found(&self) -> &[u32]
        ensures { result.now ≡ self.now.found }
    {
        let _ = &self.from;
        let _ = &self.numbers;
        &self.found
    }

    /// Finds the classes to which walks lead from this one. What an earlier search found is forgotten.
    ///
    /// # Errors
    ///
    /// `AllocError` where memory was refused.
    pub fn search(&mut self, leading: &Leading<'_>, start: u32) -> Result<(), AllocError>
        requires start { start < length leading.now.lists }
        requires size { length self.old.numbers ≡ length leading.now.lists }
        ensures size { length self.new.numbers ≡ length self.old.numbers }
        ensures tree { OnOk result (IsTreeOf leading.now start self.new) }
    {
        forget(&mut self.numbers, &self.found);
        self.found.clear();
        self.from.clear();
        grow(
            leading,
            start,
            &mut self.found,
            &mut self.from,
            &mut self.numbers,
        )
    }

    /// Makes of `walk` the shown walk to a class that was found, from the one at which the search began.
    ///
    /// # Errors
    ///
    /// `AllocError` where memory was refused.
    pub fn walk(
        &self,
        leading: &Leading<'_>,
        start: u32,
        end: u32,
        walk: &mut Vec<u32>,
    ) -> Result<(), AllocError>
        requires tree { IsTreeOf leading.now start self.now }
        requires end { Contains self.now.found end }
        ensures { OnOk result
            (IsShownWalk (IsNear leading.now.lists) (ComesBefore leading.now.places) start end walk.new.items) }
    {
        let Some(number) = self.numbers[end as usize] else {
            unreachable!()
        };
        walk.clear();
        walk.push(end)?;
        let mut place = self.from[number];
        while place > 0 {
            walk.push(self.found[place - 1])?;
            place = self.from[place - 1];
        }
        walk.push(start)?;
        walk.reverse();
        Ok(())
    }
}

/// Takes the numbers of these classes away, which are all that have one.
fn forget(numbers: &mut Vec<Option<usize>>, found: &[u32])
    requires { AreTouched numbers.old.items found.now }
    ensures size { length numbers.new.items ≡ length numbers.old.items }
    ensures none { (x : ℕ) → slice_index_or numbers.new.items x None ≡ None }
{
    for class in found {
        numbers[*class as usize] = None;
    }
}

/// Goes on from the start, and then from each class that was found.
fn grow(
    leading: &Leading<'_>,
    start: u32,
    found: &mut Vec<u32>,
    from: &mut Vec<usize>,
    numbers: &mut Vec<Option<usize>>,
) -> Result<(), AllocError>
    requires start { start < length leading.now.lists }
    requires size { length numbers.old.items ≡ length leading.now.lists }
    requires none { (x : ℕ) → slice_index_or numbers.old.items x None ≡ None }
    requires empty { (found.old.items ≡ []) × (from.old.items ≡ []) }
    ensures size { length numbers.new.items ≡ length numbers.old.items }
    ensures touched { AreTouched numbers.new.items found.new.items }
    ensures tree { OnOk result (IsTreeOf leading.now start
        (record { found = found.new.items; from = from.new.items; numbers = numbers.new.items })) }
{
    expand(leading.of(start), leading, start, 0, found, from, numbers)?;
    let mut done = 0;
    while done < found.len() {
        let class = found[done];
        done += 1;
        expand(
            leading.of(class),
            leading,
            start,
            done,
            found,
            from,
            numbers,
        )?;
    }
    Ok(())
}

/// Finds those of these classes that weren't found yet, from the class at this place.
fn expand(
    near: &[u32],
    leading: &Leading<'_>,
    start: u32,
    place: usize,
    found: &mut Vec<u32>,
    from: &mut Vec<usize>,
    numbers: &mut Vec<Option<usize>>,
) -> Result<(), AllocError>
    requires near { near.now ≡ list_at leading.now.lists (class_at_place start found.old.items place) }
    requires order { AreInOrder leading.now.places near.now }
    requires within { (k : ℕ) → k < length near.now → slice_index_or near.now k 0 < length numbers.old.items }
    requires place { place ≤ length found.old.items }
    requires touched { AreTouched numbers.old.items found.old.items }
    requires part { IsPart leading.now start place near.now 0 found.old.items from.old.items numbers.old.items }
    ensures size { length numbers.new.items ≡ length numbers.old.items }
    ensures count { OnOk result (count_by is_none numbers.new.items + length found.new.items
        ≡ count_by is_none numbers.old.items + length found.old.items) }
    ensures longer { length found.old.items ≤ length found.new.items }
    ensures at { class_at_place start found.new.items place ≡ class_at_place start found.old.items place }
    ensures touched { AreTouched numbers.new.items found.new.items }
    ensures part { OnOk result (IsPart leading.now start place near.now (length near.now) found.new.items from.new.items numbers.new.items) }
{
    for x in near {
        if numbers[*x as usize].is_none() {
            let number = found.len();
            found.push(*x)?;
            from.push(place)?;
            numbers[*x as usize] = Some(number);
        }
    }
    Ok(())
}
