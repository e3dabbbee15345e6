//! A repair of the order: what the search that has ended has found moves.

ghost use Rattle.std.specs.Prelude.{◌≡◌, ◌↔◌, ℕ, ◌+◌, ◌-◌, ◌<◌, ◌≤◌, ◌^◌, [], Contains, length, slice_index};
ghost use Rattle.std.specs.Bool.{OnFalse, OnTrue};
ghost use Rattle.ld_graph.specs.Inner.Affected.{HasEnded, IsFound};
ghost use Rattle.ld_graph.specs.Inner.Repairs.{IsMended, IsOrReaches, IsRepaired};
ghost use Rattle.ld_graph.specs.Lists.{IsNear};
ghost use Rattle.ld_order.specs.Orders.{AreRanks};

use crate::affected::{Direction, find_affected};
use crate::lists::{Counting, Lists, Steps};
use crate::search::Search;
use ld_order::Order;

/// `find_affected` by ranks.
fn find_by_rank<C: Counting>(
    order: &Order,
    lists: &Lists<C>,
    steps: &mut Steps<C>,
    a: u32,
    b: u32,
    backward: &mut Search,
    forward: &mut Search,
) -> Direction
    requires a { a < length order.now.ranks }
    requires b { b < length order.now.ranks }
    requires against { slice_index order.now.ranks b < slice_index order.now.ranks a }
    requires few { length order.now.ranks ≤ 2 ^ 31 }
    requires lists { (length lists.now.after.lists ≡ length order.now.ranks)
        × (length lists.now.before.lists ≡ length order.now.ranks) }
    requires turned { (x y : ℕ) → IsNear lists.now.after.lists x y
        ↔ IsNear lists.now.before.lists y x }
    requires ends { (x y : ℕ) → IsNear lists.now.after.lists x y
        → (x < length order.now.ranks) × (y < length order.now.ranks) }
    requires backward { (backward.old.found ≡ []) × (length order.now.ranks ≤ backward.old.size) }
    requires forward { (forward.old.found ≡ []) × (length order.now.ranks ≤ forward.old.size) }
    requires steps { steps.old < 2 ^ 63 }
    ensures size { (backward.new.size ≡ backward.old.size) × (forward.new.size ≡ forward.old.size) }
    ensures first { (slice_index backward.new.found 0 ≡ a) × (slice_index forward.new.found 0 ≡ b) }
    ensures ended { HasEnded result lists.now (slice_index order.now.ranks) (length order.now.ranks)
        (slice_index order.now.ranks b) (slice_index order.now.ranks a) backward.new.found forward.new.found }
    ensures read { steps.new ≤ steps.old + length backward.new.found + length forward.new.found }
    ensures most { steps.new ≤ steps.old + length order.now.ranks + length order.now.ranks }
    ensures some { steps.old < steps.new }
    ensures ranks { AreRanks order.now.ranks }
{
    find_affected(lists, steps, order.labels(), a, b, backward, forward)
}

/// Moves what the search backward has found, which has ended, directly before the class `b`, and answers whether it
/// could: it couldn't where a walk leads from `b` to `a`.
fn settle_backward<C: Counting>(
    order: &mut Order,
    lists: &Lists<C>,
    a: u32,
    b: u32,
    search: &Search,
) -> bool
    requires a { a < length order.old.ranks }
    requires b { b < length order.old.ranks }
    requires turned { (x y : ℕ) → IsNear lists.now.after.lists x y
        ↔ IsNear lists.now.before.lists y x }
    requires ends { (x y : ℕ) → IsNear lists.now.after.lists x y
        → (x < length order.old.ranks) × (y < length order.old.ranks) }
    requires rises { (x y : ℕ) → IsNear lists.now.after.lists x y
        → slice_index order.old.ranks x < slice_index order.old.ranks y }
    requires found { IsFound (IsNear lists.now.before.lists) (slice_index order.old.ranks)
        (length order.old.ranks) (slice_index order.old.ranks b) (slice_index order.old.ranks a)
        search.now.found (length search.now.found) }
    requires first { slice_index search.now.found 0 ≡ a }
    requires size { length order.old.ranks ≤ search.now.size }
    requires ranks { AreRanks order.old.ranks }
    ensures room { order.new.room ≡ order.old.room }
    ensures met { OnFalse result ((order.new.ranks ≡ order.old.ranks)
        × IsOrReaches (IsNear lists.now.after.lists) b a) }
    ensures mended { OnTrue result (IsMended (IsNear lists.now.after.lists) a b
        order.old.ranks order.new.ranks) }
    ensures apart { OnTrue result (¬ Contains search.now.found b) }
{
    if search.has(b) {
        return false;
    }
    order.move_before(b, search.found());
    true
}

/// Moves what the search forward has found, which has ended, directly behind the class `a`, and answers whether it
/// could: it couldn't where a walk leads from `b` to `a`.
fn settle_forward<C: Counting>(
    order: &mut Order,
    lists: &Lists<C>,
    a: u32,
    b: u32,
    search: &Search,
) -> bool
    requires a { a < length order.old.ranks }
    requires b { b < length order.old.ranks }
    requires ends { (x y : ℕ) → IsNear lists.now.after.lists x y
        → (x < length order.old.ranks) × (y < length order.old.ranks) }
    requires rises { (x y : ℕ) → IsNear lists.now.after.lists x y
        → slice_index order.old.ranks x < slice_index order.old.ranks y }
    requires found { IsFound (IsNear lists.now.after.lists) (slice_index order.old.ranks)
        (length order.old.ranks) (slice_index order.old.ranks b) (slice_index order.old.ranks a)
        search.now.found (length search.now.found) }
    requires first { slice_index search.now.found 0 ≡ b }
    requires size { length order.old.ranks ≤ search.now.size }
    requires ranks { AreRanks order.old.ranks }
    ensures room { order.new.room ≡ order.old.room }
    ensures met { OnFalse result ((order.new.ranks ≡ order.old.ranks)
        × IsOrReaches (IsNear lists.now.after.lists) b a) }
    ensures mended { OnTrue result (IsMended (IsNear lists.now.after.lists) a b
        order.old.ranks order.new.ranks) }
    ensures apart { OnTrue result (¬ Contains search.now.found a) }
{
    if search.has(a) {
        return false;
    }
    order.move_behind(a, search.found());
    true
}

/// Repairs the order for an edge from `a` to `b` that goes against it, and answers whether it could: it couldn't where
/// a walk leads from `b` to `a`. The lists that are read for it are counted.
pub fn reorder<C: Counting>(
    order: &mut Order,
    lists: &Lists<C>,
    steps: &mut Steps<C>,
    a: u32,
    b: u32,
    backward: &mut Search,
    forward: &mut Search,
) -> bool
    requires a { a < length order.old.ranks }
    requires b { b < length order.old.ranks }
    requires against { slice_index order.old.ranks b < slice_index order.old.ranks a }
    requires few { length order.old.ranks ≤ 2 ^ 31 }
    requires lists { (length lists.now.after.lists ≡ length order.old.ranks)
        × (length lists.now.before.lists ≡ length order.old.ranks) }
    requires turned { (x y : ℕ) → IsNear lists.now.after.lists x y
        ↔ IsNear lists.now.before.lists y x }
    requires ends { (x y : ℕ) → IsNear lists.now.after.lists x y
        → (x < length order.old.ranks) × (y < length order.old.ranks) }
    requires rises { (x y : ℕ) → IsNear lists.now.after.lists x y
        → slice_index order.old.ranks x < slice_index order.old.ranks y }
    requires backward { (backward.old.found ≡ []) × (length order.old.ranks ≤ backward.old.size) }
    requires forward { (forward.old.found ≡ []) × (length order.old.ranks ≤ forward.old.size) }
    requires steps { steps.old < 2 ^ 63 }
    ensures size { (backward.new.size ≡ backward.old.size) × (forward.new.size ≡ forward.old.size) }
    ensures room { order.new.room ≡ order.old.room }
    ensures rises { steps.old ≤ steps.new }
    ensures most { steps.new ≤ steps.old + length order.old.ranks + length order.old.ranks }
    ensures met { OnFalse result ((order.new.ranks ≡ order.old.ranks)
        × IsOrReaches (IsNear lists.now.after.lists) b a) }
    ensures repaired { OnTrue result (IsRepaired (IsNear lists.now.after.lists) a b
        order.old.ranks order.new.ranks (steps.new - steps.old)) }
{
    let ended = find_by_rank(order, lists, steps, a, b, backward, forward);
    // Read so that it is known that each was found once.
    let _ = backward.found();
    let _ = forward.found();
    match ended {
        Direction::Backward => settle_backward(order, lists, a, b, backward),
        Direction::Forward => settle_forward(order, lists, a, b, forward),
    }
}
