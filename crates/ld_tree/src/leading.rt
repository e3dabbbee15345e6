//! Of each class the successors that lead to one of some ends, in order.
ghost use Rattle.std.specs.Prelude.{◌≡◌, ◌<◌, ℕ, None, [], ◌∷◌, ◌++◌, Contains, IfOk, OnOk, length, map, nat_eq, slice_index_or};
ghost use Rattle.std.specs.List.{IsDistinct};
ghost use Rattle.ld_graph.specs.Lists.{list_at};
ghost use Rattle.ld_graph.specs.Touched.{AreTouched};
ghost use Rattle.ld_tree.specs.Inner.{AreClosed, AreMarked, ArePushed, items_of};
ghost use Rattle.ld_tree.specs.Trees.{AreInOrder, AreLeading, ArePlaced};

use ld_graph::{Graph, Reader};
use std::alloc::{AllocError, Global};
use std::marker::Model;

/// For each class of a graph those of its successors that are one of some ends or lead to one, in an order.
#[derive(Drop)]
pub struct Leading<'p> {
    places: &'p [u32],
    lists: Vec<Vec<u32>>,
}

impl<'p> Model for Leading<'p> {
    ghost use Rattle.ld_tree.specs.Trees.{PlainLeading};
    ghost use Rattle.ld_tree.specs.Inner.{AreLists, items_of};

    ghost Value = { PlainLeading };

    ghost view = { λ l. record { places = l.places.now; lists = items_of l.lists.items } };

    ghost invariant = { λ l. AreLists l.places.now (items_of l.lists.items) };
}

impl<'p> Leading<'p> {
    /// Those of a graph's classes, which have these places in an order, and which `numbers` names in it.
    ///
    /// # Errors
    ///
    /// `AllocError` where memory was refused.
    pub fn new(
        alloc: Global,
        graph: &Graph,
        ends: &[u32],
        numbers: &[u32],
        places: &'p [u32],
    ) -> Result<Leading<'p>, AllocError>
        requires ends { (e : ℕ) → Contains ends.now e → e < graph.now.classes }
        requires order { ArePlaced graph.now.classes numbers.now places.now }
        ensures places { IfOk result (λ leading. leading.places ≡ places.entry.now) }
        ensures size { IfOk result (λ leading. length leading.lists ≡ graph.now.classes) }
        ensures leading { IfOk result (λ leading. AreLeading graph.now.edges ends.now leading.lists) }
    {
        let marks = leading_to(alloc, graph, ends)?;
        let mut lists = no_lists(alloc, graph.len())?;
        let sides = graph.lists();
        for class in numbers {
            if marks[*class as usize].is_some() {
                push_each(Reader::new(sides).before(*class), *class, &mut lists)?;
            }
        }
        Ok(Leading { places, lists })
    }

    /// Those of the class. Takes no memory.
    pub(crate) fn of(&self, class: u32) -> &[u32]
        requires { class < length self.now.lists }
        ensures near { result.now ≡ list_at self.now.lists class }
        ensures order { AreInOrder self.now.places result.now }
        ensures within { (k : ℕ) → k < length result.now → slice_index_or result.now k 0 < length self.now.lists }
    {
        let _ = &self.places;
        &self.lists[class as usize]
    }
}

/// Puts the class behind the others of each of these lists.
fn push_each(near: &[u32], class: u32, lists: &mut Vec<Vec<u32>>) -> Result<(), AllocError>
    requires once { IsDistinct nat_eq near.now }
    requires within { (x : ℕ) → Contains near.now x → x < length lists.old.items }
    ensures pushed { OnOk result (ArePushed near.now class (items_of lists.old.items) (items_of lists.new.items)) }
{
    for x in near {
        lists[*x as usize].push(class)?;
    }
    Ok(())
}

/// So many lists of no class.
fn no_lists(alloc: Global, count: usize) -> Result<Vec<Vec<u32>>, AllocError>
    ensures len { IfOk result (λ lists. length lists.items ≡ count) }
    ensures none { IfOk result (λ lists. (x : ℕ) → list_at (items_of lists.items) x ≡ []) }
{
    let mut lists = Vec::with_capacity(alloc, count)?;
    for _ in 0..count {
        lists.push(Vec::new(alloc))?;
    }
    Ok(lists)
}

/// Marks the classes that are one of these or lead to one.
fn leading_to(alloc: Global, graph: &Graph, ends: &[u32]) -> Result<Vec<Option<usize>>, AllocError>
    requires ends { (e : ℕ) → Contains ends.now e → e < graph.now.classes }
    ensures { IfOk result (λ marks. AreClosed graph.now.edges graph.now.classes ends.now marks.items) }
{
    let mut marks = vec![in alloc; None; graph.len()]?;
    let mut found = Vec::new(alloc);
    mark(ends, &mut found, &mut marks)?;
    let mut done = 0;
    while done < found.len() {
        let class = found[done];
        done += 1;
        mark(
            Reader::new(graph.lists()).before(class),
            &mut found,
            &mut marks,
        )?;
    }
    Ok(marks)
}

/// Finds and marks those of these classes that weren't yet.
fn mark(
    near: &[u32],
    found: &mut Vec<u32>,
    marks: &mut Vec<Option<usize>>,
) -> Result<(), AllocError>
    requires within { (x : ℕ) → Contains near.now x → x < length marks.old.items }
    requires touched { AreTouched marks.old.items found.old.items }
    ensures size { length marks.new.items ≡ length marks.old.items }
    ensures marked { OnOk result (AreMarked near.now found.old.items marks.old.items found.new.items marks.new.items) }
{
    for x in near {
        if marks[*x as usize].is_none() {
            found.push(*x)?;
            marks[*x as usize] = Some(0);
        }
    }
    Ok(())
}
