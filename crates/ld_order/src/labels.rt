//! Labels of nodes: one between two others, and how some are dealt out anew where there is no room.

ghost use Rattle.std.specs.Prelude.{◌≡◌, ◌≢◌, ◌+◌, ◌*◌, ◌-◌, ◌<◌, ◌≤◌, ◌^◌, ℕ, length, slice_index, IfSome, vec_capacity};
ghost use Rattle.ld_order.specs.declared.labels.TheConstants.{STEP};
ghost use Rattle.ld_order.specs.Inner.Rings.{IsRing, IsSameOrder, IsSparse, IsSpread, rank};

/// How far labels are apart where all are dealt out anew, and at both ends of the list.
pub const STEP: u64 = 1 << 32;

/// How far labels are apart at most that are dealt out between two others.
const NEAR: u64 = 1 << 16;

/// The side of a gap on which nodes are put, so that room is left on the other.
#[derive(Clone, Copy)]
pub enum Side {
    /// Directly above the node before the gap.
    Low,
    /// Directly below the node behind the gap.
    High,
}

/// So many nodes, and the step between their labels.
#[derive(Clone, Copy)]
pub struct Stretch {
    /// How many nodes.
    pub count: usize,
    /// The step.
    pub step: u64,
}

/// A label between a node's and the next one's, for the first of so many nodes that go there. Where there is no room
/// for them, labels are dealt out anew first.
pub fn fit(labels: &mut [u64], next: &[u32], prev: &[u32], at: u32, left: usize, side: Side) -> u64
    requires ring { IsRing labels.old next.now prev.now }
    requires few { length labels.old ≤ 2 ^ 31 }
    requires at { at < length labels.old }
    requires some { 0 < left }
    requires most { left < 2 ^ 31 }
    ensures ring { IsRing labels.new next.now prev.now }
    ensures len { length labels.new ≡ length labels.old }
    ensures order { IsSameOrder (length labels.old) (slice_index labels.old) (slice_index labels.new) }
    ensures low { slice_index labels.new at < result }
    ensures high { slice_index next.now at ≢ 0
        → result < slice_index labels.new (slice_index next.now at) }
{
    make_room(labels, next, prev, at, left);
    let width = gap(labels, next, at);
    labels[at as usize] + offset(width, left, at, next[at as usize], side)
}

/// Where the first of so many nodes goes in a gap of this width between two others. Nothing else comes to either end of
/// the list, so there the steps are as wide as between all labels.
fn offset(width: u64, left: usize, at: u32, after: u32, side: Side) -> u64
    requires some { 0 < left }
    requires few { left < 2 ^ 31 }
    requires room { left < width }
    ensures { (0 < result) × (result < width) }
{
    if after == 0 {
        return step_in(width, left, STEP, Side::Low);
    }
    if at == 0 {
        return step_in(width, left, STEP, Side::High);
    }
    step_in(width, left, NEAR, side)
}

/// Where the first of so many nodes goes in a gap of this width, if they stand in even steps, of at most so much, from
/// one side of it.
fn step_in(width: u64, left: usize, most: u64, side: Side) -> u64
    requires some { 0 < left }
    requires few { left < 2 ^ 31 }
    requires room { left < width }
    requires most { 0 < most }
    ensures { (0 < result) × (result < width) }
{
    let left = left as u64;
    let step = (width / (left + 1)).min(most);
    match side {
        Side::Low => step,
        Side::High => width - step * left,
    }
}

/// Deals all labels out anew where there is no room for one more behind the last one.
pub fn make_room_at_end(labels: &mut Vec<u64>, next: &[u32], prev: &[u32])
    requires ring { IsRing labels.old.items next.now prev.now }
    requires few { length labels.old.items ≤ 2 ^ 31 }
    ensures ring { IsRing labels.new.items next.now prev.now }
    ensures len { length labels.new.items ≡ length labels.old.items }
    ensures order { IsSameOrder (length labels.old.items) (slice_index labels.old.items)
        (slice_index labels.new.items) }
    ensures top { slice_index labels.new.items (slice_index prev.now 0) + STEP < 2 ^ 64 }
    ensures room { vec_capacity labels.new ≡ vec_capacity labels.old }
{
    let last = prev[0];
    if labels[last as usize] < u64::MAX - STEP {
        return;
    }
    relabel(labels, next, prev, STEP);
}

/// Deals labels out anew where there are not so many between a node's and the next one's.
fn make_room(labels: &mut [u64], next: &[u32], prev: &[u32], at: u32, left: usize)
    requires ring { IsRing labels.old next.now prev.now }
    requires few { length labels.old ≤ 2 ^ 31 }
    requires at { at < length labels.old }
    requires some { 0 < left }
    requires most { left < 2 ^ 31 }
    ensures ring { IsRing labels.new next.now prev.now }
    ensures len { length labels.new ≡ length labels.old }
    ensures order { IsSameOrder (length labels.old) (slice_index labels.old) (slice_index labels.new) }
    ensures next { slice_index next.now at ≢ 0
        → slice_index labels.new at + left < slice_index labels.new (slice_index next.now at) }
    ensures last { slice_index labels.new at + left + 1 < 2 ^ 64 }
{
    if gap(labels, next, at) <= left as u64 {
        widen(labels, next, prev, at, left);
    }
}

/// Deals out the labels behind a node anew, of the fewest that leave room for so many nodes, or all labels where there
/// is none.
fn widen(labels: &mut [u64], next: &[u32], prev: &[u32], at: u32, left: usize)
    requires ring { IsRing labels.old next.now prev.now }
    requires few { length labels.old ≤ 2 ^ 31 }
    requires at { at < length labels.old }
    requires some { 0 < left }
    requires most { left < 2 ^ 31 }
    ensures ring { IsRing labels.new next.now prev.now }
    ensures len { length labels.new ≡ length labels.old }
    ensures order { IsSameOrder (length labels.old) (slice_index labels.old) (slice_index labels.new) }
    ensures next { slice_index next.now at ≢ 0
        → slice_index labels.new at + left < slice_index labels.new (slice_index next.now at) }
    ensures last { slice_index labels.new at + left + 1 < 2 ^ 64 }
{
    match sparse(labels, next, prev, at, left) {
        Some(stretch) => spread(labels, next, prev, at, left, stretch.count, stretch.step),
        None => relabel(labels, next, prev, STEP),
    }
}

/// How far the next node's label is from a node's, or the greatest number where there is no next one.
fn gap(labels: &[u64], next: &[u32], at: u32) -> u64
    requires at { at < length labels.now }
    requires next { slice_index next.now at < length labels.now }
    requires in_next { at < length next.now }
    requires up { slice_index next.now at ≢ 0
        → slice_index labels.now at < slice_index labels.now (slice_index next.now at) }
    ensures next { slice_index next.now at ≢ 0
        → result + slice_index labels.now at ≡ slice_index labels.now (slice_index next.now at) }
    ensures last { slice_index next.now at ≡ 0 → result + slice_index labels.now at ≡ 2 ^ 64 - 1 }
    ensures most { result + slice_index labels.now at < 2 ^ 64 }
{
    let after = next[at as usize];
    if after == 0 {
        u64::MAX - labels[at as usize]
    } else {
        labels[after as usize] - labels[at as usize]
    }
}

/// The nodes behind another one that leave room for so many more, if their labels are dealt out in even steps: the
/// fewest that are sparse, by the square of their count. Answers `None` where there is no room up to the greatest
/// number.
fn sparse(labels: &[u64], next: &[u32], prev: &[u32], at: u32, left: usize) -> Option<Stretch>
    requires ring { IsRing labels.now next.now prev.now }
    requires few { length labels.now ≤ 2 ^ 31 }
    requires at { at < length labels.now }
    requires some { 0 < left }
    requires most { left < 2 ^ 31 }
    ensures { IfSome result (λ s. IsSparse (length labels.now) (slice_index labels.now) at left s.count s.step) }
{
    let mut node = next[at as usize];
    let mut count: usize = 0;
    while node != 0 {
        let width = labels[node as usize] - labels[at as usize];
        let parts = (count + left) as u64 + 1;
        if width > parts * parts {
            return Some(Stretch {
                count,
                step: width / parts,
            });
        }
        node = next[node as usize];
        count += 1;
    }
    if u64::MAX - labels[at as usize] > ((count + left) as u64 + 1) * STEP {
        Some(Stretch { count, step: STEP })
    } else {
        None
    }
}

/// Deals out the labels of so many nodes behind another one anew, in even steps from that one's, with room for so many
/// more nodes before them. The order stays.
fn spread(
    labels: &mut [u64],
    next: &[u32],
    prev: &[u32],
    at: u32,
    left: usize,
    count: usize,
    step: u64,
)
    requires ring { IsRing labels.old next.now prev.now }
    requires at { at < length labels.old }
    requires count { rank (length labels.old) (slice_index labels.old) at + count < length labels.old }
    requires step { 0 < step }
    requires few { left < 2 ^ 31 }
    requires fits { slice_index labels.old at + (left + count) * step < 2 ^ 64 }
    requires stretch { (c : ℕ) → c < length labels.old
        → rank (length labels.old) (slice_index labels.old) at + count
        < rank (length labels.old) (slice_index labels.old) c
        → slice_index labels.old at + (left + count) * step < slice_index labels.old c }
    ensures ring { IsRing labels.new next.now prev.now }
    ensures len { length labels.new ≡ length labels.old }
    ensures order { IsSameOrder (length labels.old) (slice_index labels.old) (slice_index labels.new) }
    ensures spread { IsSpread (length labels.old) (slice_index labels.old) (slice_index labels.new)
        at left count step }
{
    let mut node = at;
    let mut label = labels[at as usize] + left as u64 * step;
    for _ in 0..count {
        node = next[node as usize];
        label += step;
        labels[node as usize] = label;
    }
}

/// Deals all labels out anew, so many apart. The order stays.
pub fn relabel(labels: &mut [u64], next: &[u32], prev: &[u32], step: u64)
    requires ring { IsRing labels.old next.now prev.now }
    requires few { length labels.old ≤ 2 ^ 31 }
    requires step { 0 < step }
    requires fits { length labels.old * step < 2 ^ 64 }
    ensures ring { IsRing labels.new next.now prev.now }
    ensures len { length labels.new ≡ length labels.old }
    ensures order { IsSameOrder (length labels.old) (slice_index labels.old) (slice_index labels.new) }
    ensures labels { (c : ℕ) → c < length labels.old
        → slice_index labels.new c ≡ rank (length labels.old) (slice_index labels.old) c * step }
{
    let mut node = 0;
    let mut label = 0;
    for place in 0..labels.len() {
        labels[node as usize] = label;
        if place + 1 < labels.len() {
            label += step;
        }
        node = next[node as usize];
    }
}
