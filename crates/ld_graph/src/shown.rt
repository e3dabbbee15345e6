//! The walk that is shown, among the shortest ones.

ghost use Rattle.std.specs.Prelude.{◌≡◌, ℕ, ◌<◌, ◌↔◌, length, Some, Contains};
ghost use Rattle.std.specs.Prelude.{IsTrue, IfOk, MatchOption};
ghost use Rattle.ld_graph.specs.Edges.{ComesBefore};
ghost use Rattle.ld_graph.specs.Inner.Levels.{IsLeastAtLevel, level_at};
ghost use Rattle.ld_graph.specs.Lists.{IsNear};
ghost use Rattle.ld_graph.specs.Walks.{AreEnough, IsShownWalk};

use crate::distance::Distance;
use crate::lists::{Lists, Reader};
use std::alloc::{AllocError, Global};

/// Whether `x` comes before `y`: by place, then by number.
fn comes_before(x: u32, y: u32, places: &[u32]) -> bool
    requires x { x < length places.now }
    requires y { y < length places.now }
    ensures { IsTrue result ↔ ComesBefore places.now x y }
{
    let (place, other) = (places[x as usize], places[y as usize]);
    place < other || (place == other && x < y)
}

/// The level of the class.
fn level_of(levels: &[Distance], class: u32) -> Option<u32>
    requires { class < length levels.now }
    ensures { result ≡ level_at levels.now class }
{
    levels[class as usize].get()
}

/// Of the neighbours of this level, the one that comes before the others.
fn nearest(near: &[u32], level: u32, levels: &[Distance], places: &[u32]) -> Option<u32>
    requires levels { (x : ℕ) → Contains near.now x → x < length levels.now }
    requires places { (x : ℕ) → Contains near.now x → x < length places.now }
    ensures { MatchOption result
        ((x : ℕ) → Contains near.now x → level_at levels.now x ≡ Some level → ⊥)
        (IsLeastAtLevel (Contains near.now) level levels.now places.now) }
{
    let mut least: Option<u32> = None;
    for x in near {
        if level_of(levels, *x) == Some(level) {
            least = match least {
                Some(old) if !comes_before(*x, old, places) => Some(old),
                _ => Some(*x),
            };
        }
    }
    least
}

/// The class that follows this one on the shown walk, of this level.
fn next_on(lists: &Lists, class: u32, level: u32, levels: &[Distance], places: &[u32]) -> u32
    requires class { class < length lists.now.after.lists }
    requires levels { length levels.now ≡ length lists.now.after.lists }
    requires places { length places.now ≡ length lists.now.after.lists }
    requires ends { (x y : ℕ) → IsNear lists.now.after.lists x y → y < length lists.now.after.lists }
    requires some { ¬ ((x : ℕ) → IsNear lists.now.after.lists class x → level_at levels.now x ≡ Some level → ⊥) }
    ensures { IsLeastAtLevel (IsNear lists.now.after.lists class) level levels.now places.now result }
{
    let Some(next) = nearest(Reader::new(lists).after(class), level, levels, places) else {
        unreachable!()
    };
    next
}

/// The shown walk from `a` to `b`, by levels that are enough of the distances to `b` for it.
pub fn show(
    alloc: Global,
    lists: &Lists,
    a: u32,
    b: u32,
    distance: u32,
    levels: &[Distance],
    places: &[u32],
) -> Result<Vec<u32>, AllocError>
    requires a { a < length lists.now.after.lists }
    requires levels { length levels.now ≡ length lists.now.after.lists }
    requires places { length places.now ≡ length lists.now.after.lists }
    requires ends { (x y : ℕ) → IsNear lists.now.after.lists x y → y < length lists.now.after.lists }
    requires distances { AreEnough (IsNear lists.now.after.lists) a b (level_at levels.now) }
    requires distance { level_at levels.now a ≡ Some distance }
    ensures { IfOk result (λ walk.
        IsShownWalk (IsNear lists.now.after.lists) (ComesBefore places.now) a b walk.items) }
{
    let mut walk = Vec::with_capacity(alloc, distance as usize + 1)?;
    walk.push_reserved(a);
    let mut last = a;
    let mut left = distance;
    while left > 1 {
        left -= 1;
        let next = next_on(lists, last, left, levels, places);
        walk.push_reserved(next);
        last = next;
    }
    walk.push_reserved(b);
    Ok(walk)
}
