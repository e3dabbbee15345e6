//! Classes, as nodes in the order of their labels.

ghost use Rattle.std.specs.Prelude.{◌≡◌, ◌+◌, ◌<◌, ◌≤◌, ◌^◌, ℕ, length, slice_index, vec_capacity, Contains, map, nat_eq};
ghost use Rattle.std.specs.List.{IsDistinct};
ghost use Rattle.std.specs.List.Sorted.{IsNonDecreasingBy, IsPermutation};
ghost use Rattle.ld_order.specs.Inner.Labels.{labelled, node_of};

/// A node with its label.
#[derive(Clone, Copy)]
pub struct Labelled {
    /// The node's label.
    pub label: u64,
    /// The node.
    pub node: u32,
}

/// Writes the nodes of these classes into a list, in the order of their labels. The pool is working space.
pub fn arrange(labels: &[u64], classes: &[u32], pool: &mut Vec<Labelled>, sorted: &mut Vec<u32>)
    requires classes { (x : ℕ) → Contains classes.now x → x + 1 < length labels.now }
    requires few { length labels.now ≤ 2 ^ 31 }
    requires once { IsDistinct nat_eq classes.now }
    requires apart { (x y : ℕ) → x < length labels.now → y < length labels.now
        → slice_index labels.now x ≡ slice_index labels.now y → x ≡ y }
    requires pool { length classes.now ≤ vec_capacity pool.old }
    requires room { length classes.now ≤ vec_capacity sorted.old }
    ensures same { IsPermutation (map node_of classes.now) sorted.new.items }
    ensures rising { (j k : ℕ) → j < k → k < length sorted.new.items
        → slice_index labels.now (slice_index sorted.new.items j)
        < slice_index labels.now (slice_index sorted.new.items k) }
    ensures pool { vec_capacity pool.old ≤ vec_capacity pool.new }
    ensures room { vec_capacity sorted.old ≤ vec_capacity sorted.new }
{
    label_all(labels, classes, pool);
    pool.sort_unstable_by_key(|entry| entry.label);
    take_nodes(pool, sorted);
}

/// Puts the nodes of these classes into the pool, with their labels.
fn label_all(labels: &[u64], classes: &[u32], pool: &mut Vec<Labelled>)
    requires classes { (x : ℕ) → Contains classes.now x → x + 1 < length labels.now }
    requires few { length labels.now ≤ 2 ^ 31 }
    requires room { length classes.now ≤ vec_capacity pool.old }
    ensures items { pool.new.items ≡ map (labelled labels.now) classes.now }
    ensures room { vec_capacity pool.old ≤ vec_capacity pool.new }
{
    pool.clear();
    for class in classes {
        let node = *class + 1;
        pool.push_reserved(Labelled {
            label: labels[node as usize],
            node,
        });
    }
}

/// Puts the nodes of the pool into a list.
fn take_nodes(pool: &[Labelled], sorted: &mut Vec<u32>)
    requires room { length pool.now ≤ vec_capacity sorted.old }
    ensures items { sorted.new.items ≡ map (λ entry. entry.node) pool.now }
    ensures room { vec_capacity sorted.old ≤ vec_capacity sorted.new }
{
    sorted.clear();
    for entry in pool {
        sorted.push_reserved(entry.node);
    }
}
