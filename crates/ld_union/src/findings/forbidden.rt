//! The forbidden walks.
ghost use Rattle.std.specs.Prelude.{◌≡◌, ◌++◌, ◌<◌, ℕ, All, Contains, IfOk, List, OnOk, length, map, nat_eq, slice_index_or};
ghost use Rattle.std.specs.List.{IsDistinct};
ghost use Rattle.ld_trace.specs.Sources.{PlainSource};
ghost use Rattle.ld_tree.specs.Trees.{IsTreeOf};
ghost use Rattle.ld_rules.specs.Usage.Bit.{In};
ghost use Rattle.ld_union.specs.Findings.{AreByState, AreForbiddenRows, AreOfState};
ghost use Rattle.ld_union.specs.Inner.ByName.{class_name};
ghost use Rattle.ld_union.specs.Inner.Bits.{HasBitAt};
ghost use Rattle.ld_union.specs.Inner.Rows.{AreBehind, AreEndRows, AreEndRowsOf, AreForbiddenRowsOf, AreHeldPlaces, AreLeadingTo};
ghost use Rattle.ld_union.specs.Inner.Rows.{AreWithBit, IsOfEach};
ghost use Rattle.ld_union.specs.Inner.Walks.{IsWithin, walk_row};
ghost use Rattle.ld_union.specs.Inner.Union.{Shows};
ghost use Rattle.ld_union.specs.Usage.{bits_of};

use crate::alarms::{Found, has, in_bit, on_bit};
use crate::findings::forbidden_rows::{ForbiddenRows, WalkList};
use crate::findings::walks::Indexed;
use crate::reaches::PerState;
use ld_class::Usage;
use ld_trace::State;
use ld_tree::{Leading, Tree};
use std::alloc::{AllocError, Global};

/// A class that handlers acquire, and what a search from it has found among what leads to the second ends.
#[derive(Clone, Copy)]
struct First<'t, 'p> {
    class: u32,
    leading: &'t Leading<'p>,
    tree: &'t Tree,
}

/// The forbidden walks of each state, by the names of their ends.
pub(crate) fn forbidden_rows<'u, 'a>(
    alloc: Global,
    indexed: Indexed<'u, '_, 'a>,
    found: &Found,
) -> Result<PerState<ForbiddenRows<'u, 'a>>, AllocError>
    ensures rows { IfOk result (λ rows. (sources : List PlainSource)
        → Shows sources indexed.entry.union.now
        → IsOfEach sources found.now
        → AreForbiddenRows sources (rows.hard ++ rows.soft)) }
    ensures states { IfOk result (λ rows. AreByState rows) }
{
    let hard = forbidden_of(alloc, indexed, State::Hard, found)?;
    let soft = forbidden_of(alloc, indexed, State::Soft, found)?;
    Ok(PerState { hard, soft })
}

/// The forbidden walks of a state, by the names of their ends, where one was found.
fn forbidden_of<'u, 'a>(
    alloc: Global,
    indexed: Indexed<'u, '_, 'a>,
    state: State,
    found: &Found,
) -> Result<ForbiddenRows<'u, 'a>, AllocError>
    ensures rows { IfOk result (λ rows. (sources : List PlainSource)
        → Shows sources indexed.entry.union.now
        → IsOfEach sources found.now
        → AreForbiddenRowsOf sources (λ p. p.0 ≡ state) rows) }
    ensures state { IfOk result (λ rows. AreOfState state rows) }
{
    if found.forbidden.get(state).is_none() {
        return Ok(ForbiddenRows::none(alloc, indexed.union, state));
    }
    let walks = walks_by_ends(alloc, indexed, state)?;
    Ok(ForbiddenRows::new(indexed.union, state, walks))
}

/// The same, class by class, so that one search serves all the walks from a class.
fn walks_by_ends(
    alloc: Global,
    indexed: Indexed<'_, '_, '_>,
    state: State,
) -> Result<WalkList, AllocError>
    ensures within { IfOk result (λ walks. All (IsWithin (length indexed.entry.union.now.classes)) walks) }
    ensures rows { IfOk result (λ walks. (sources : List PlainSource)
        → Shows sources indexed.entry.union.now
        → AreEndRows sources state (map (walk_row indexed.entry.union.now state) walks)) }
{
    let mut walks = WalkList::new(alloc);
    let firsts = with_bit(alloc, indexed, in_bit(state))?;
    let leading = leading_to_held(alloc, indexed, state)?;
    let mut tree = Tree::new(alloc, indexed.union.graph().len())?;
    for from in &firsts {
        tree.search(&leading, *from)?;
        let first = First {
            class: *from,
            leading: &leading,
            tree: &tree,
        };
        walks_from(alloc, indexed, state, &first, &mut walks)?;
    }
    Ok(walks)
}

/// The classes with this bit, by name.
fn with_bit(alloc: Global, indexed: Indexed<'_, '_, '_>, bit: Usage) -> Result<Vec<u32>, AllocError>
    ensures { IfOk result (λ classes. AreWithBit indexed.entry.union.now bit classes.items) }
{
    let mut classes = Vec::new(alloc);
    for class in &indexed.order.numbers {
        if has(indexed.union.usage(), *class as usize, bit) {
            classes.push(*class)?;
        }
    }
    Ok(classes)
}

/// What leads to the classes that are held where handlers of the state can interrupt.
fn leading_to_held<'o>(
    alloc: Global,
    indexed: Indexed<'_, 'o, '_>,
    state: State,
) -> Result<Leading<'o>, AllocError>
    ensures { IfOk result (λ leading. AreLeadingTo indexed.entry.union.now state indexed.entry.order.now.places.items leading) }
{
    let ends = with_bit(alloc, indexed, on_bit(state))?;
    let leading = Leading::new(
        alloc,
        indexed.union.graph(),
        &ends,
        &indexed.order.numbers,
        &indexed.order.places,
    )?;
    Ok(leading)
}

/// Puts those from this class, which handlers of the state acquire, behind the others, by the names of their second
/// ends.
fn walks_from(
    alloc: Global,
    indexed: Indexed<'_, '_, '_>,
    state: State,
    first: &First<'_, '_>,
    walks: &mut WalkList,
) -> Result<(), AllocError>
    requires from { first.now.class < length indexed.union.now.classes }
    requires acquired { HasBitAt (bits_of indexed.union.now.usage) first.now.class (In state) }
    requires leading { AreLeadingTo indexed.union.now state indexed.order.now.places.items first.now.leading.now }
    requires tree { IsTreeOf first.now.leading.now first.now.class first.now.tree.now }
    requires size { length first.now.tree.now.numbers ≡ length indexed.union.now.classes }
    requires within { All (IsWithin (length indexed.union.now.classes)) walks.old }
    ensures within { OnOk result (All (IsWithin (length indexed.entry.union.now.classes)) walks.new) }
    ensures rows { OnOk result ((sources : List PlainSource)
        → Shows sources indexed.entry.union.now
        → AreBehind (AreEndRowsOf sources state (λ p. p.0 ≡ class_name indexed.entry.union.now.classes first.now.class))
        (map (walk_row indexed.entry.union.now state) walks.old) (map (walk_row indexed.entry.union.now state) walks.new)) }
{
    let places = places_held(alloc, indexed, state, first.tree.found())?;
    let mut walk = Vec::new(alloc);
    for place in &places {
        let to = indexed.order.numbers[*place as usize];
        first.tree.walk(first.leading, first.class, to, &mut walk)?;
        walks.push(first.class, to, &walk)?;
    }
    Ok(())
}

/// The places, in the order of names, of those of these classes that are held where handlers of the state can
/// interrupt, from the least on.
// Numbers are sorted here, so that no row has to be moved.
fn places_held(
    alloc: Global,
    indexed: Indexed<'_, '_, '_>,
    state: State,
    found: &[u32],
) -> Result<Vec<u32>, AllocError>
    requires within { (c : ℕ) → Contains found.now c → c < length indexed.union.now.classes }
    requires once { IsDistinct nat_eq found.now }
    ensures exact { IfOk result (λ places. AreHeldPlaces indexed.entry.union.now state
        indexed.entry.order.now.numbers.items found.now places.items) }
    ensures rising { IfOk result (λ places. (i j : ℕ) → i < j → j < length places.items
        → slice_index_or places.items i 0 < slice_index_or places.items j 0) }
{
    let held = on_bit(state);
    let mut places = Vec::new(alloc);
    for class in found {
        // Most classes on the way to an end aren't one.
        if has(indexed.union.usage(), *class as usize, held) {
            places.push(indexed.order.places[*class as usize])?;
        }
    }
    places.sort_unstable();
    Ok(places)
}
