//! A search from class to predecessor that gives classes their distances to the class it begins at, until those
//! that are wanted have theirs.

ghost use Rattle.std.specs.Prelude.{◌≡◌, ◌↔◌, ◌+◌, ◌<◌, ◌≤◌, ℕ, [], None, IfSome, IsTrue, is_none, count_by, slice_index};
ghost use Rattle.std.specs.Prelude.{length, slice_index_or, vec_len, vec_capacity, All, Contains};
ghost use Rattle.ld_graph.specs.declared.graph.TheConstants.{MOST_GRAPH_CLASSES};
ghost use Rattle.ld_graph.specs.Inner.Insides.{AreLevelsFor, IsInsideOf, IsNearInside, StaysIn, component_at};
ghost use Rattle.ld_graph.specs.Inner.Levels.{HasLevel, Spreads, level_at};
ghost use Rattle.ld_graph.specs.Lists.{IsNear};
ghost use Rattle.ld_graph.specs.Touched.{AreTouched};

use crate::distance::Distance;
use crate::lists::{Lists, Reader};

/// The number of the class's component, where components are given.
fn component_of(components: Option<&[u32]>, class: u32) -> u32
    requires { IfSome components (λ c. class < length c.now) }
    ensures { result ≡ component_at components.entry class }
{
    match components {
        Some(components) => components[class as usize],
        None => 0,
    }
}

/// Whether the class is of this component, where components are given.
fn stays_in(components: Option<&[u32]>, component: u32, class: u32) -> bool
    requires { IfSome components (λ c. class < length c.now) }
    ensures { IsTrue result ↔ StaysIn components.entry component class }
{
    match components {
        Some(components) => components[class as usize] == component,
        None => true,
    }
}

/// Gives this level to each of these neighbours in the component that has none, and lets it wait.
fn expand(
    near: &[u32],
    components: Option<&[u32]>,
    component: u32,
    level: u32,
    levels: &mut [Distance],
    queue: &mut Vec<u32>,
)
    requires some { 0 < level }
    requires ends { (x : ℕ) → Contains near.now x → x < length levels.old }
    requires components { IfSome components (λ c. length c.now ≡ length levels.old) }
    requires room { vec_len queue.old + count_by is_none levels.old ≤ vec_capacity queue.old }
    // Each class waits once, when it gets its level.
    ensures count { vec_len queue.new + count_by is_none levels.new
        ≡ vec_len queue.old + count_by is_none levels.old }
    ensures capacity { vec_capacity queue.old ≤ vec_capacity queue.new }
    ensures spreads { Spreads (IsInsideOf components.entry component near.now) level
        levels.old queue.old.items levels.new queue.new.items }
    ensures reached { (x : ℕ) → IsInsideOf components.entry component near.now x → HasLevel levels.new x }
{
    for x in near {
        // Most have a level, so that is asked first.
        if levels[*x as usize].is_none() {
            if stays_in(components, component, *x) {
                levels[*x as usize] = Distance::of(level);
                queue.push_reserved(*x);
            }
        }
    }
}

/// How many of these classes, from the first on, have a level before one has none, where the first `known` do.
pub(crate) fn known_front(levels: &[Distance], wanted: &[u32], known: usize) -> usize
    requires wanted { All (λ w. w < length levels.now) wanted.now }
    requires known { (i : ℕ) → i < known → HasLevel levels.now (slice_index_or wanted.now i 0) }
    ensures known { (i : ℕ) → i < result → HasLevel levels.now (slice_index_or wanted.now i 0) }
    ensures next { result < length wanted.now → level_at levels.now (slice_index_or wanted.now result 0) ≡ None }
{
    let mut known = known;
    while known < wanted.len() {
        if levels[wanted[known] as usize].is_none() {
            return known;
        }
        known += 1;
    }
    known
}

/// Gives classes the least number of edges of a walk from them to `end`, within the component of `end` where components
/// are given, until all that are wanted have one, or no further class can get one. Tells which got one. Takes no
/// memory.
pub(crate) fn measure(
    lists: &Lists,
    components: Option<&[u32]>,
    wanted: &[u32],
    end: u32,
    levels: &mut [Distance],
    queue: &mut Vec<u32>,
)
    requires end { end < length lists.now.before.lists }
    requires few { length lists.now.before.lists ≤ MOST_GRAPH_CLASSES }
    requires classes { length levels.old ≡ length lists.now.before.lists }
    requires components { IfSome components (λ c. length c.now ≡ length lists.now.before.lists) }
    requires wanted { All (λ w. w < length lists.now.before.lists) wanted.now }
    requires ends { (a b : ℕ) → IsNear lists.now.before.lists a b
        → b < length lists.now.before.lists }
    requires room { length lists.now.before.lists ≤ vec_capacity queue.old }
    requires none { (x : ℕ) → slice_index_or levels.old x None ≡ None }
    requires empty { queue.old.items ≡ [] }
    ensures capacity { vec_capacity queue.old ≤ vec_capacity queue.new }
    ensures touched { AreTouched levels.new queue.new.items }
    ensures levels { All (λ w. AreLevelsFor
        (λ a b. IsNearInside lists.now.before.lists components.entry (component_at components.entry end) b a) w end
        levels.new) wanted.now }
{
    let component = component_of(components, end);
    expand(
        Reader::new(lists).before(end),
        components,
        component,
        1,
        levels,
        queue,
    );
    let mut done = 0;
    let mut known = 0;
    while done < queue.len() {
        known = known_front(levels, wanted, known);
        if known >= wanted.len() {
            return;
        }
        let class = queue[done];
        let Some(level) = levels[class as usize].get() else {
            unreachable!()
        };
        expand(
            Reader::new(lists).before(class),
            components,
            component,
            level + 1,
            levels,
            queue,
        );
        done += 1;
    }
}
