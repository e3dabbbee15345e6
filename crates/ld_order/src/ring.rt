//! The ring of nodes.

ghost use Rattle.std.specs.Prelude.{◌≡◌, ◌≢◌, ◌+◌, ◌<◌, max, ◌≤◌, ◌^◌, ◌++◌, ◌∷◌, [], ℕ, length, slice_index, vec_capacity};
ghost use Rattle.ld_order.specs.declared.labels.TheConstants.{STEP};
ghost use Rattle.ld_order.specs.declared.ring.TheConstants.{FIRST};
ghost use Rattle.ld_order.specs.Inner.Kept.{ranks_of};
ghost use Rattle.ld_order.specs.Inner.Rings.{IsBehind, IsRing, rank};

use crate::labels::STEP;

/// The least label of a node that is appended, with as much room before it as all nodes need.
const FIRST: u64 = 1 << 62;

/// Puts a node, which is in the ring, directly behind another one, with a label between that one's and the next
/// one's.
pub fn place(labels: &mut [u64], next: &mut [u32], prev: &mut [u32], node: u32, at: u32, label: u64)
    requires ring { IsRing labels.old next.old prev.old }
    requires some { 0 < node }
    requires node { node < length labels.old }
    requires at { at < length labels.old }
    requires other { at ≢ node }
    requires moves { slice_index next.old at ≢ node }
    requires low { slice_index labels.old at < label }
    requires high { slice_index next.old at ≢ 0
        → label < slice_index labels.old (slice_index next.old at) }
    ensures ring { IsRing labels.new next.new prev.new }
    ensures len { length labels.new ≡ length labels.old }
    ensures behind { IsBehind (length labels.old) (slice_index labels.old) (slice_index labels.new) node at }
    ensures next { slice_index next.new node ≡ slice_index next.old at }
{
    let (before, behind) = (prev[node as usize], next[node as usize]);
    next[before as usize] = behind;
    prev[behind as usize] = before;
    let after = next[at as usize];
    next[at as usize] = node;
    next[node as usize] = after;
    prev[after as usize] = node;
    prev[node as usize] = at;
    labels[node as usize] = label;
}

/// Makes the head, unless it is there. Takes no memory.
pub fn begin(labels: &mut Vec<u64>, next: &mut Vec<u32>, prev: &mut Vec<u32>)
    requires ring { 0 < length labels.old.items → IsRing labels.old.items next.old.items prev.old.items }
    requires next_len { length next.old.items ≡ length labels.old.items }
    requires prev_len { length prev.old.items ≡ length labels.old.items }
    requires labels_room { 0 < vec_capacity labels.old }
    requires next_room { 0 < vec_capacity next.old }
    requires prev_room { 0 < vec_capacity prev.old }
    ensures ring { IsRing labels.new.items next.new.items prev.new.items }
    ensures len { length labels.new.items ≡ max 1 (length labels.old.items) }
    ensures ranks { ranks_of labels.new.items ≡ ranks_of labels.old.items }
    ensures room { (vec_capacity labels.new ≡ vec_capacity labels.old)
        × ((vec_capacity next.new ≡ vec_capacity next.old) × (vec_capacity prev.new ≡ vec_capacity prev.old)) }
{
    if !labels.is_empty() {
        return;
    }
    labels.push_reserved(0);
    next.push_reserved(0);
    prev.push_reserved(0);
}

/// Appends a node, with a label above all others. Takes no memory.
pub fn append(labels: &mut Vec<u64>, next: &mut Vec<u32>, prev: &mut Vec<u32>)
    requires ring { IsRing labels.old.items next.old.items prev.old.items }
    requires few { length labels.old.items ≤ 2 ^ 31 }
    requires top { slice_index labels.old.items (slice_index prev.old.items 0) + STEP < 2 ^ 64 }
    requires labels_room { length labels.old.items < vec_capacity labels.old }
    requires next_room { length labels.old.items < vec_capacity next.old }
    requires prev_room { length labels.old.items < vec_capacity prev.old }
    ensures ring { IsRing labels.new.items next.new.items prev.new.items }
    ensures labels { labels.new.items ≡ labels.old.items
        ++ max (slice_index labels.old.items (slice_index prev.old.items 0) + STEP) FIRST ∷ [] }
    ensures room { (vec_capacity labels.new ≡ vec_capacity labels.old)
        × ((vec_capacity next.new ≡ vec_capacity next.old) × (vec_capacity prev.new ≡ vec_capacity prev.old)) }
{
    let node = labels.len() as u32;
    let last = prev[0];
    let label = (labels[last as usize] + STEP).max(FIRST);
    labels.push_reserved(label);
    next.push_reserved(0);
    prev.push_reserved(last);
    next[last as usize] = node;
    prev[0] = node;
}

/// Writes the rank of each class.
pub fn fill(labels: &[u64], next: &[u32], prev: &[u32], ranks: &mut [u32])
    requires ring { IsRing labels.now next.now prev.now }
    requires few { length labels.now ≤ 2 ^ 31 }
    requires len { length ranks.old + 1 ≡ length labels.now }
    ensures len { length ranks.new ≡ length ranks.old }
    ensures ranks { (c : ℕ) → c < length ranks.old
        → slice_index ranks.new c + 1 ≡ rank (length labels.now) (slice_index labels.now) (c + 1) }
{
    let mut node = next[0];
    for place in 0..ranks.len() {
        ranks[node as usize - 1] = place as u32;
        node = next[node as usize];
    }
}
