//! Nodes that go to another place of the list.

ghost use Rattle.std.specs.Prelude.{◌≡◌, ◌≢◌, ◌↔◌, ◌+◌, ◌<◌, ◌≤◌, ◌^◌, ℕ, length, slice_index, vec_capacity, Contains, nat_eq};
ghost use Rattle.std.specs.List.{IsDistinct};
ghost use Rattle.ld_order.specs.Orders.{HaveMoved};
ghost use Rattle.ld_order.specs.Inner.Kept.{ranks_of};
ghost use Rattle.ld_order.specs.Inner.Rings.{IsOneOf, IsRing, IsShifted};

use crate::labels::{Side, fit};
use crate::ring::place;
use crate::sorted::{Labelled, arrange};

/// Moves these classes directly behind a node, in their order. The pool and the list are working space.
pub fn move_classes(
    labels: &mut Vec<u64>,
    next: &mut Vec<u32>,
    prev: &mut Vec<u32>,
    pool: &mut Vec<Labelled>,
    sorted: &mut Vec<u32>,
    at: u32,
    classes: &[u32],
    side: Side,
)
    requires ring { IsRing labels.old.items next.old.items prev.old.items }
    requires few { length labels.old.items ≤ 2 ^ 31 }
    requires at { at < length labels.old.items }
    requires classes { (x : ℕ) → Contains classes.now x → x + 1 < length labels.old.items }
    requires once { IsDistinct nat_eq classes.now }
    requires free { (x : ℕ) → Contains classes.now x → x + 1 ≢ at }
    requires apart { (x : ℕ) → Contains classes.now x → slice_index next.old.items at ≢ x + 1 }
    requires pool { length labels.old.items ≤ vec_capacity pool.old + 1 }
    requires room { length labels.old.items ≤ vec_capacity sorted.old + 1 }
    ensures ring { IsRing labels.new.items next.new.items prev.new.items }
    ensures len { length labels.new.items ≡ length labels.old.items }
    ensures room { (vec_capacity labels.new ≡ vec_capacity labels.old)
        × ((vec_capacity next.new ≡ vec_capacity next.old) × (vec_capacity prev.new ≡ vec_capacity prev.old)) }
    ensures space { (vec_capacity pool.old ≤ vec_capacity pool.new) × (vec_capacity sorted.old ≤ vec_capacity sorted.new) }
    ensures moved { (limit : ℕ) → ((c : ℕ) → c + 1 < length labels.old.items
        → (slice_index labels.old.items at < slice_index labels.old.items (c + 1))
        ↔ (limit ≤ slice_index (ranks_of labels.old.items) c))
        → HaveMoved (Contains classes.now) limit (ranks_of labels.old.items) (ranks_of labels.new.items) }
{
    arrange(labels, classes, pool, sorted);
    shift(labels, next, prev, at, sorted, side);
}

/// Moves these nodes, which stand in this order, directly behind another one.
fn shift(labels: &mut [u64], next: &mut [u32], prev: &mut [u32], at: u32, found: &[u32], side: Side)
    requires ring { IsRing labels.old next.old prev.old }
    requires few { length labels.old ≤ 2 ^ 31 }
    requires at { at < length labels.old }
    requires most { length found.now < 2 ^ 31 }
    requires some { (k : ℕ) → k < length found.now → 0 < slice_index found.now k }
    requires nodes { (k : ℕ) → k < length found.now → slice_index found.now k < length labels.old }
    requires rising { (j k : ℕ) → j < k → k < length found.now
        → slice_index labels.old (slice_index found.now j) < slice_index labels.old (slice_index found.now k) }
    requires free { (k : ℕ) → k < length found.now → slice_index found.now k ≢ at }
    requires apart { (k : ℕ) → k < length found.now → slice_index next.old at ≢ slice_index found.now k }
    ensures ring { IsRing labels.new next.new prev.new }
    ensures len { length labels.new ≡ length labels.old }
    ensures links { (length next.new ≡ length next.old) × (length prev.new ≡ length prev.old) }
    ensures shifted { IsShifted (length labels.old) (slice_index labels.old) (slice_index labels.new)
        (IsOneOf found.now (length found.now)) at }
{
    let mut behind = at;
    let mut left = found.len();
    for node in found {
        let label = fit(labels, next, prev, behind, left, side);
        place(labels, next, prev, *node, behind, label);
        behind = *node;
        left -= 1;
    }
}
