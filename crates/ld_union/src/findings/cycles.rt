//! The dependencies that are on cycles.
ghost use Rattle.std.specs.Prelude.{◌≡◌, ◌↔◌, ◌<◌, ℕ, Contains, IfOk, List, MatchOption, length, map, slice_index_or};
ghost use Rattle.ld_trace.specs.Sources.{PlainSource};
ghost use Rattle.ld_rules.specs.Union.{dependency_witness};
ghost use Rattle.ld_union.specs.Findings.{AreCycleRows, plain_cycle_row};
ghost use Rattle.ld_union.specs.Inner.ByName.{AreRising, class_name, name_at};
ghost use Rattle.ld_union.specs.Inner.Rows.{AreBackPlaces, AreComponentsOf, AreCycleRowsOf, AreEnoughFrom};
ghost use Rattle.ld_union.specs.Inner.Rows.{IsBackEdge, IsCycleRowOf, IsOfEach};
ghost use Rattle.ld_union.specs.Inner.Union.{Shows};
ghost use Rattle.ld_union.specs.Violations.{IsCycle};

use crate::alarms::Found;
use crate::findings::walks::{Indexed, walk_names};
use crate::union::Union;
use crate::walk::Walk;
use ld_class::ClassName;
use ld_graph::{Distance, Distances, Reader};
use ld_rules::Witness;
use std::alloc::{AllocError, Global};

/// A dependency on a cycle.
#[derive(Drop)]
pub struct CycleRow<'u, 'a> {
    /// The class of the lock that was held.
    pub from: ClassName<'a>,
    /// The class of the lock that was acquired under it.
    pub to: ClassName<'a>,
    /// Where the dependency was first seen.
    pub at: Witness,
    /// The shown walk back from `to` to `from`, or nothing where they are equal. A shown walk is a
    /// shortest one, which goes on from each class to the least-named that is one step nearer.
    pub via: Walk<'u, 'a>,
}

/// The dependencies that are on cycles, by the names of their classes, where one was found.
pub(crate) fn cycle_rows<'u, 'a>(
    alloc: Global,
    indexed: Indexed<'u, '_, 'a>,
    found: &Found,
) -> Result<Vec<CycleRow<'u, 'a>>, AllocError>
    ensures { IfOk result (λ rows. (sources : List PlainSource)
        → Shows sources indexed.entry.union.now
        → IsOfEach sources found.now
        → AreCycleRows sources (map plain_cycle_row rows.items)) }
{
    let mut rows = Vec::new(alloc);
    if found.cycle.is_none() {
        return Ok(rows);
    }
    let components = indexed.union.graph().components(alloc)?;
    let mut distances = Distances::new(alloc, indexed.union.graph().len())?;
    for from in &indexed.order.numbers {
        let mut more = cycles_from(alloc, indexed, &components, &mut distances, *from)?;
        rows.append(&mut more)?;
    }
    Ok(rows)
}

/// Those that leave this class, by the name of the other one. Where there is none, nothing is searched
/// for.
fn cycles_from<'u, 'a>(
    alloc: Global,
    indexed: Indexed<'u, '_, 'a>,
    components: &[u32],
    distances: &mut Distances,
    from: u32,
) -> Result<Vec<CycleRow<'u, 'a>>, AllocError>
    requires components { AreComponentsOf indexed.union.now components.now }
    requires distances { length distances.old ≡ length indexed.union.now.classes }
    requires from { from < length indexed.union.now.classes }
    ensures distances { length distances.new ≡ length indexed.entry.union.now.classes }
    ensures rows { IfOk result (λ rows. (sources : List PlainSource)
        → Shows sources indexed.entry.union.now
        → AreCycleRowsOf sources (λ p. p.0 ≡ class_name indexed.entry.union.now.classes from)
        (map plain_cycle_row rows.items)) }
{
    let mut rows = Vec::new(alloc);
    let ends = ends_on_cycle(alloc, indexed, components, from)?;
    if ends.is_empty() {
        return Ok(rows);
    }
    indexed
        .union
        .graph()
        .distances_inside(from, components, &ends, distances);
    for to in &ends {
        if let Some(row) = cycle_row(alloc, indexed, distances.levels(), from, *to)? {
            rows.push(row)?;
        }
    }
    Ok(rows)
}

/// The classes to which dependencies on cycles lead from this class, by name.
fn ends_on_cycle(
    alloc: Global,
    indexed: Indexed<'_, '_, '_>,
    components: &[u32],
    from: u32,
) -> Result<Vec<u32>, AllocError>
    requires components { AreComponentsOf indexed.union.now components.now }
    requires from { from < length indexed.union.now.classes }
    ensures exact { IfOk result (λ ends. (to : ℕ) →
        Contains ends.items to ↔ IsBackEdge indexed.entry.union.now from to) }
    ensures rising { IfOk result (λ ends.
        AreRising (name_at indexed.entry.union.now.classes ends.items) (length ends.items)) }
{
    let places = places_on_cycle(alloc, indexed, components, from)?;
    let mut ends = Vec::with_capacity(alloc, places.len())?;
    for place in &places {
        ends.push(indexed.order.numbers[*place as usize])?;
    }
    Ok(ends)
}

/// The places of these classes in the order of names, from the least on. The dependencies on cycles are those
/// that stay in the component.
fn places_on_cycle(
    alloc: Global,
    indexed: Indexed<'_, '_, '_>,
    components: &[u32],
    from: u32,
) -> Result<Vec<u32>, AllocError>
    requires components { AreComponentsOf indexed.union.now components.now }
    requires from { from < length indexed.union.now.classes }
    ensures exact { IfOk result (λ places. AreBackPlaces indexed.entry.union.now
        indexed.entry.order.now.numbers.items from places.items) }
    ensures rising { IfOk result (λ places. (i j : ℕ) → i < j → j < length places.items
        → slice_index_or places.items i 0 < slice_index_or places.items j 0) }
{
    let mut places = Vec::new(alloc);
    for &to in Reader::new(indexed.union.graph().lists()).after(from) {
        if components[to as usize] == components[from as usize] {
            places.push(indexed.order.places[to as usize])?;
        }
    }
    places.sort_unstable();
    Ok(places)
}

/// The row of the dependency between these classes, by the distances to the first one, or `None` where
/// there is none on a cycle.
fn cycle_row<'u, 'a>(
    alloc: Global,
    indexed: Indexed<'u, '_, 'a>,
    distances: &[Distance],
    from: u32,
    to: u32,
) -> Result<Option<CycleRow<'u, 'a>>, AllocError>
    requires from { from < length indexed.union.now.classes }
    requires distances { AreEnoughFrom indexed.union.now to from distances.now }
    requires to { to < length indexed.union.now.classes }
    ensures { IfOk result (λ row. (sources : List PlainSource)
        → Shows sources indexed.entry.union.now
        → MatchOption row
        (¬ IsCycle sources (class_name indexed.entry.union.now.classes from)
        (class_name indexed.entry.union.now.classes to))
        (λ r. IsCycleRowOf sources (class_name indexed.entry.union.now.classes from)
        (class_name indexed.entry.union.now.classes to) (plain_cycle_row r))) }
{
    if distances[to as usize].is_none() {
        return Ok(None);
    }
    let Some(number) = indexed.union.graph().edge(from, to) else {
        return Ok(None);
    };
    let at = indexed.union.dependencies()[number as usize].first;
    let via = if to == from {
        // A class that is acquired under itself shows no walk.
        Walk::new(indexed.union.classes(), Vec::new(alloc))
    } else {
        let Some(via) = walk_names(alloc, indexed, distances, to, from)? else {
            return Ok(None);
        };
        via
    };
    Ok(Some(CycleRow {
        from: indexed.union.classes().name(from),
        to: indexed.union.classes().name(to),
        at,
        via,
    }))
}
