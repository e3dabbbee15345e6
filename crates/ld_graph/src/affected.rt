//! Two searches for what an edge against the order affects: backward from where it leaves, and forward from where it
//! enters.

ghost use Rattle.std.specs.Prelude.{◌≡◌, ℕ, ◌+◌, ◌<◌, ◌≤◌, ◌^◌, [], Contains, length, slice_index, MatchOption};
ghost use Rattle.std.specs.Bool.{Decides};
ghost use Rattle.ld_graph.specs.Inner.Affected.{HasEnded, IsFound, IsIn, IsReached, of_direction};
ghost use Rattle.ld_graph.specs.Lists.{IsNear, list_at};

use crate::lists::{Counting, Lists, Steps};
use crate::search::Search;

/// Which way a search follows the edges.
#[derive(Clone, Copy)]
pub enum Direction {
    /// To the successors.
    Forward,
    /// To the predecessors.
    Backward,
}

/// Finds those of these classes whose labels are in the range.
fn find_near(near: &[u32], labels: &[u64], low: u64, high: u64, search: &mut Search)
    requires ends { (x : ℕ) → Contains near.now x → x < length labels.now }
    requires size { length labels.now ≤ search.old.size }
    ensures size { search.new.size ≡ search.old.size }
    ensures reached { IsReached (Contains near.now) (slice_index labels.now) low high
        search.old.found search.new.found }
    ensures taken { (x : ℕ) → Contains near.now x → IsIn low high (slice_index labels.now x)
        → Contains search.new.found x }
{
    for x in near {
        if is_in(labels[*x as usize], low, high) {
            search.add(*x);
        }
    }
}

/// Whether a label is in the range.
fn is_in(label: u64, low: u64, high: u64) -> bool
    ensures { Decides result (IsIn low high label) }
{
    low <= label && label <= high
}

/// The neighbours of a class in this direction. Adds one to the count.
fn neighbours_of<'l, C: Counting>(
    lists: &'l Lists<C>,
    steps: &mut Steps<C>,
    direction: Direction,
    class: u32,
) -> &'l [u32]
    requires class { class < length (of_direction direction lists.now) }
    requires few { steps.old + 1 < 2 ^ 64 }
    ensures near { result.now ≡ list_at (of_direction direction lists.entry.now) class }
    ensures step { steps.new ≡ steps.old + 1 }
{
    match direction {
        Direction::Forward => lists.after(class, steps),
        Direction::Backward => lists.before(class, steps),
    }
}

/// Goes on from the class that was found as number `done`, whose neighbours these are, and answers those of the next
/// class that was found. Answers `None` where there is no next one.
fn expand<'l, C: Counting>(
    direction: Direction,
    lists: &'l Lists<C>,
    steps: &mut Steps<C>,
    labels: &[u64],
    low: u64,
    high: u64,
    near: &'l [u32],
    search: &mut Search,
    done: usize,
) -> Option<&'l [u32]>
    requires lists { length (of_direction direction lists.now) ≡ length labels.now }
    requires ends { (x y : ℕ) → IsNear (of_direction direction lists.now) x y → y < length labels.now }
    requires size { length labels.now ≤ search.old.size }
    requires few { steps.old + 1 < 2 ^ 64 }
    requires waits { done < length search.old.found }
    requires small { done + 1 < 2 ^ 64 }
    requires near { near.now ≡ list_at (of_direction direction lists.now) (slice_index search.old.found done) }
    requires found { IsFound (IsNear (of_direction direction lists.now)) (slice_index labels.now)
        (length labels.now) low high search.old.found done }
    ensures size { search.new.size ≡ search.old.size }
    ensures found { IsFound (IsNear (of_direction direction lists.now)) (slice_index labels.now)
        (length labels.now) low high search.new.found (done + 1) }
    ensures most { length search.new.found ≤ length labels.now }
    ensures first { slice_index search.new.found 0 ≡ slice_index search.old.found 0 }
    ensures next { MatchOption result (length search.new.found ≤ done + 1)
        (λ near. (done + 1 < length search.new.found)
        × (near.now ≡ list_at (of_direction direction lists.now) (slice_index search.new.found (done + 1)))) }
    ensures count { MatchOption result (steps.new ≡ steps.old) (λ _. steps.new ≡ steps.old + 1) }
{
    find_near(near, labels, low, high, search);
    // Read so that it is known that each was found once.
    let _ = search.found();
    if search.ends_at(done + 1) {
        return None;
    }
    let class = search.class(done + 1);
    Some(neighbours_of(lists, steps, direction, class))
}

/// Searches backward from `a` and forward from `b`, within the labels from that of `b` to that of `a`, until one of
/// the two has ended, and answers which one. The one whose lists have fewer neighbours, with the list that waits, goes
/// on.
pub fn find_affected<C: Counting>(
    lists: &Lists<C>,
    steps: &mut Steps<C>,
    labels: &[u64],
    a: u32,
    b: u32,
    backward: &mut Search,
    forward: &mut Search,
) -> Direction
    requires a { a < length labels.now }
    requires b { b < length labels.now }
    requires against { slice_index labels.now b < slice_index labels.now a }
    requires few { length labels.now ≤ 2 ^ 31 }
    requires lists { (length lists.now.after.lists ≡ length labels.now)
        × (length lists.now.before.lists ≡ length labels.now) }
    requires after { (x y : ℕ) → IsNear lists.now.after.lists x y → y < length labels.now }
    requires before { (x y : ℕ) → IsNear lists.now.before.lists x y → y < length labels.now }
    requires backward { (backward.old.found ≡ []) × (length labels.now ≤ backward.old.size) }
    requires forward { (forward.old.found ≡ []) × (length labels.now ≤ forward.old.size) }
    requires steps { steps.old < 2 ^ 63 }
    ensures size { (backward.new.size ≡ backward.old.size) × (forward.new.size ≡ forward.old.size) }
    ensures first { (slice_index backward.new.found 0 ≡ a) × (slice_index forward.new.found 0 ≡ b) }
    ensures ended { HasEnded result lists.now (slice_index labels.now) (length labels.now)
        (slice_index labels.now b) (slice_index labels.now a) backward.new.found forward.new.found }
    ensures read { steps.new ≤ steps.old + length backward.new.found + length forward.new.found }
    ensures most { steps.new ≤ steps.old + length labels.now + length labels.now }
    ensures some { steps.old < steps.new }
{
    let (low, high) = (labels[b as usize], labels[a as usize]);
    backward.add(a);
    forward.add(b);
    let mut near_backward = lists.before(a, steps);
    let mut near_forward = lists.after(b, steps);
    let (mut read_backward, mut read_forward) = (near_backward.len(), near_forward.len());
    let (mut done_backward, mut done_forward) = (0, 0);
    loop {
        if read_backward <= read_forward {
            let Some(near) = expand(
                Direction::Backward,
                lists,
                steps,
                labels,
                low,
                high,
                near_backward,
                backward,
                done_backward,
            ) else {
                return Direction::Backward;
            };
            near_backward = near;
            done_backward += 1;
            read_backward = read_backward.saturating_add(near.len()).saturating_add(1);
        } else {
            let Some(near) = expand(
                Direction::Forward,
                lists,
                steps,
                labels,
                low,
                high,
                near_forward,
                forward,
                done_forward,
            ) else {
                return Direction::Forward;
            };
            near_forward = near;
            done_forward += 1;
            read_forward = read_forward.saturating_add(near.len()).saturating_add(1);
        }
    }
}
