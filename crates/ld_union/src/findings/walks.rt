//! The walks that rows show, by a union with its classes by name.
ghost use Rattle.ld_union.specs.Inner.ByName.{AreByName, by_name_props, class_name};
ghost use Rattle.std.specs.Prelude.{◌≡◌, ◌<◌, All, IfOk, List, MatchOption, length, map};
ghost use Rattle.ld_graph.specs.Edges.{IsEdge};
ghost use Rattle.ld_graph.specs.Walks.{HasWalk};
ghost use Rattle.ld_trace.specs.Sources.{PlainSource};
ghost use Rattle.ld_rules.specs.Union.{dependency_witness};
ghost use Rattle.ld_union.specs.Findings.{IsShown, plain_names};
ghost use Rattle.ld_union.specs.Inner.Rows.{AreEnoughFrom};
ghost use Rattle.ld_union.specs.Inner.Union.{Shows, edges_of};

use crate::by_name::ByName;
use crate::union::Union;
use crate::walk::Walk;
use ld_class::Classes;
use ld_graph::Distance;
use std::alloc::{AllocError, Global};

/// A union, and its classes in the order of their names.
#[derive(Clone, Copy)]
pub(crate) struct Indexed<'u, 'o, 'a> {
    pub(crate) union: &'u Union<'a>,
    pub(crate) order: &'o ByName,
    ghost named: { AreByName union.now.classes order.now.numbers.items order.now.places.items } by { Prim.hlevel by_name_props },
}

/// The names of the shown walk between these classes, by distances to the second one that are enough for
/// it; or `None` where no walk leads there.
pub(crate) fn walk_names<'u, 'a>(
    alloc: Global,
    indexed: Indexed<'u, '_, 'a>,
    distances: &[Distance],
    from: u32,
    to: u32,
) -> Result<Option<Walk<'u, 'a>>, AllocError>
    requires to { to < length indexed.union.now.classes }
    requires distances { AreEnoughFrom indexed.union.now from to distances.now }
    requires from { from < length indexed.union.now.classes }
    ensures { IfOk result (λ via. MatchOption via
        (¬ HasWalk (IsEdge (edges_of indexed.entry.union.now.dependencies)) from to)
        (λ names. (sources : List PlainSource)
        → Shows sources indexed.entry.union.now
        → IsShown sources (class_name indexed.entry.union.now.classes from)
        (class_name indexed.entry.union.now.classes to) names)) }
{
    let walk = indexed
        .union
        .graph()
        .walk_along(alloc, from, to, distances, &indexed.order.places)?;
    let Some(numbers) = walk else {
        return Ok(None);
    };
    Ok(Some(Walk::new(indexed.union.classes(), numbers)))
}
