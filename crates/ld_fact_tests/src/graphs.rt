//! Worked graphs. Each call that takes memory is made once more where it was refused, so these hold
//! whichever allocation fails.

ghost use Rattle.std.specs.Prelude.{◌≡◌, ℕ, length, slice_index_or, None};
ghost use Rattle.ld_graph.specs.Edges.{IsEdge};
ghost use Rattle.ld_graph.specs.Walks.{DistanceIs};

use ld_graph::{Distance, Graph, Insert, MOST_GRAPH_CLASSES, Steps};
use std::alloc::Global;
use std::process::Abort;

/// Makes room. Where memory is refused nothing else changes, and the call made again answers `Ok`.
pub(crate) fn make_room<R: Abort>(rt: &R, graph: &mut Graph, classes: usize, edges: usize) {
    assert!(rt; classes <= MOST_GRAPH_CLASSES - graph.len());
    let (len, count) = (graph.len(), graph.edges());
    if graph.room(classes, edges).is_err() {
        assert_eq!(rt; graph.len(), len);
        assert_eq!(rt; graph.edges(), count);
        graph.room(classes, edges).expect(rt, "room made again");
    }
    assert!(rt; graph.spare_classes() >= classes && graph.spare_edges() >= edges);
}

pub(crate) fn add_classes<R: Abort>(rt: &R, graph: &mut Graph, count: u32) {
    for number in 0..count {
        assert!(rt; graph.spare_classes() > 0);
        assert_eq!(rt; graph.add_class(), number);
    }
}

fn insert<R: Abort>(rt: &R, graph: &mut Graph, a: u32, b: u32) -> Insert {
    assert!(rt; (a as usize) < graph.len() && (b as usize) < graph.len());
    assert!(rt; graph.spare_edges() > 0);
    graph.insert(a, b, &mut Steps::new())
}

fn expect_insert<R: Abort>(rt: &R, graph: &mut Graph, a: u32, b: u32, wanted: Insert) {
    assert_eq!(rt; insert(rt, graph, a, b), wanted);
}

/// Inserts an edge that is there, and has this number.
fn expect_known<R: Abort>(rt: &R, graph: &mut Graph, a: u32, b: u32, wanted: u64) {
    assert!(rt; (a as usize) < graph.len() && (b as usize) < graph.len());
    assert!(rt; graph.spare_edges() > 0);
    let (number, answer) = graph.insert_full(a, b, &mut Steps::new());
    assert_eq!(rt; number, wanted);
    assert_eq!(rt; answer, Insert::Known);
}

/// Inserts an edge that is not there yet.
pub(crate) fn insert_new<R: Abort>(rt: &R, graph: &mut Graph, a: u32, b: u32) {
    let count = graph.edges();
    assert!(rt; insert(rt, graph, a, b) != Insert::Known);
    assert!(rt; graph.edges() > count);
}

/// Inserts an edge for which the ranks are repaired, by at most so many lists.
fn insert_moved<R: Abort>(rt: &R, graph: &mut Graph, a: u32, b: u32, most: u64) {
    match insert(rt, graph, a, b) {
        Insert::Moved { expanded } => assert!(rt; expanded <= most),
        _ => panic!(rt; "no repair"),
    }
}

/// Asserts the rank of each class.
fn expect_order<R: Abort>(rt: &R, graph: &mut Graph, wanted: &[u32]) {
    match graph.order() {
        Some(ranks) => assert_eq!(rt; ranks, wanted),
        None => panic!(rt; "a cycle"),
    }
}

/// Asserts that there is no order.
fn expect_no_order<R: Abort>(rt: &R, graph: &mut Graph) {
    assert!(rt; graph.has_cycle());
    assert!(rt; graph.order().is_none());
}

/// The rank of the class.
fn rank<R: Abort>(rt: &R, graph: &mut Graph, class: u32) -> u32 {
    match graph.order() {
        Some(ranks) => {
            assert!(rt; (class as usize) < ranks.len());
            ranks[class as usize]
        }
        None => panic!(rt; "a cycle"),
    }
}

/// Asserts that there is no cycle, and that the ranks of these classes rise.
fn expect_rise<R: Abort>(rt: &R, graph: &mut Graph, classes: &[u32]) {
    let mut last = None;
    for class in classes {
        let next = Some(rank(rt, graph, *class));
        assert!(rt; last < next);
        last = next;
    }
}

/// Asserts that the edge has this number, or none.
fn expect_edge<R: Abort>(rt: &R, graph: &Graph, a: u32, b: u32, wanted: Option<u64>) {
    assert_eq!(rt; graph.edge(a, b), wanted);
}

fn distances<R: Abort>(rt: &R, alloc: Global, graph: &Graph, to: u32) -> Vec<Distance>
    ensures len { length result.items ≡ graph.now.classes }
    ensures each { (c : ℕ) →
        DistanceIs (IsEdge graph.now.edges) c to (slice_index_or result.items c None) }
{
    assert!(rt; (to as usize) < graph.len());
    match graph.distances(alloc, to) {
        Ok(distances) => distances,
        Err(_) => graph
            .distances(alloc, to)
            .expect(rt, "distances made again"),
    }
}

/// Asserts the distances of the first four classes to `to`.
fn expect_distances<R: Abort>(
    rt: &R,
    alloc: Global,
    graph: &Graph,
    to: u32,
    wanted: [Option<u32>; 4],
) {
    let distances = distances(rt, alloc, graph, to);
    assert!(rt; distances.len() == 4);
    for class in 0..4 {
        assert_eq!(rt; distances[class].get(), wanted[class], "{class} to {to}");
    }
}

fn components<R: Abort>(rt: &R, alloc: Global, graph: &Graph) -> Vec<u32>
    ensures { length result.items ≡ graph.now.classes }
{
    match graph.components(alloc) {
        Ok(components) => components,
        Err(_) => graph.components(alloc).expect(rt, "components found again"),
    }
}

fn walk<R: Abort>(
    rt: &R,
    alloc: Global,
    graph: &Graph,
    a: u32,
    b: u32,
    places: &[u32],
) -> Option<Vec<u32>> {
    assert!(rt; (a as usize) < graph.len() && (b as usize) < graph.len());
    assert!(rt; places.len() == graph.len());
    match graph.walk(alloc, a, b, places) {
        Ok(walk) => walk,
        Err(_) => graph
            .walk(alloc, a, b, places)
            .expect(rt, "walk made again"),
    }
}

/// Asserts that there is a walk between these ends, and that it is this one.
fn expect_walk<R: Abort>(
    rt: &R,
    alloc: Global,
    graph: &Graph,
    ends: (u32, u32),
    places: &[u32],
    wanted: &[u32],
) {
    let walk = walk(rt, alloc, graph, ends.0, ends.1, places).expect(rt, "a walk");
    assert_eq!(rt; walk.as_slice(), wanted);
}

/// Asserts the walk to `to` from each class in turn, or that there is none, all by one search.
fn expect_walks_along<R: Abort>(
    rt: &R,
    alloc: Global,
    graph: &Graph,
    to: u32,
    places: &[u32],
    wanted: &[Option<&[u32]>],
) {
    let distances = distances(rt, alloc, graph, to);
    assert!(rt; places.len() == graph.len());
    assert_eq!(rt; wanted.len(), graph.len());
    for a in 0..graph.len() as u32 {
        assert!(rt; (a as usize) < graph.len() && (a as usize) < wanted.len());
        let walk = match graph.walk_along(alloc, a, to, &distances, places) {
            Ok(walk) => walk,
            Err(_) => graph
                .walk_along(alloc, a, to, &distances, places)
                .expect(rt, "walk made again"),
        };
        assert_eq!(rt; walk.as_deref(), wanted[a as usize], "{a} to {to}");
    }
}

/// Asserts the answers of the graph with the edges (0, 1), (2, 0), (1, 2) and (3, 3).
fn expect_circle<R: Abort>(rt: &R, alloc: Global, graph: &mut Graph) {
    let places = [0, 1, 2, 3];
    expect_no_order(rt, graph);
    assert_eq!(rt; graph.len(), 4);
    assert_eq!(rt; graph.edges(), 4);
    expect_edge(rt, graph, 0, 1, Some(0));
    expect_edge(rt, graph, 2, 0, Some(1));
    expect_edge(rt, graph, 1, 2, Some(2));
    expect_edge(rt, graph, 3, 3, Some(3));
    expect_edge(rt, graph, 0, 2, None);
    let components = components(rt, alloc, graph);
    assert!(rt; components.len() == 4);
    assert_eq!(rt; components[0], components[1]);
    assert_eq!(rt; components[0], components[2]);
    assert!(rt; components[0] != components[3]);
    expect_distances(rt, alloc, graph, 2, [Some(2), Some(1), Some(3), None]);
    expect_walk(rt, alloc, graph, (2, 1), &places, &[2, 0, 1]);
    expect_walk(rt, alloc, graph, (0, 0), &places, &[0, 1, 2, 0]);
    assert!(rt; walk(rt, alloc, graph, 3, 0, &places).is_none());
    let wanted: [Option<&[u32]>; 4] = [Some(&[0, 1]), Some(&[1, 2, 0, 1]), Some(&[2, 0, 1]), None];
    expect_walks_along(rt, alloc, graph, 1, &places, &wanted);
}

#[test]
fn circle(rt: HostRuntime) {
    let alloc = rt.alloc();
    let mut graph = Graph::new(alloc);
    make_room(&rt, &mut graph, 4, 5);
    add_classes(&rt, &mut graph, 4);
    expect_order(&rt, &mut graph, &[0, 1, 2, 3]);
    expect_insert(&rt, &mut graph, 0, 1, Insert::Kept);
    expect_order(&rt, &mut graph, &[0, 1, 2, 3]);
    insert_moved(&rt, &mut graph, 2, 0, 3);
    expect_order(&rt, &mut graph, &[1, 2, 0, 3]);
    expect_insert(&rt, &mut graph, 0, 1, Insert::Known);
    expect_order(&rt, &mut graph, &[1, 2, 0, 3]);
    // Where a growth of this graph is refused, each answer is as before.
    assert!(rt; graph.len() == 4);
    if graph.room(100, 100).is_err() {
        expect_order(&rt, &mut graph, &[1, 2, 0, 3]);
    }
    make_room(&rt, &mut graph, 100, 100);
    expect_order(&rt, &mut graph, &[1, 2, 0, 3]);
    expect_insert(&rt, &mut graph, 1, 2, Insert::Closed);
    expect_no_order(&rt, &mut graph);
    expect_insert(&rt, &mut graph, 3, 3, Insert::AfterCycle);
    expect_insert(&rt, &mut graph, 0, 1, Insert::Known);
    expect_known(&rt, &mut graph, 2, 0, 1);
    expect_circle(&rt, alloc, &mut graph);
    assert!(rt; graph.len() == 4);
    if graph.room(1000, 1000).is_err() {
        expect_circle(&rt, alloc, &mut graph);
    }
    make_room(&rt, &mut graph, 1000, 1000);
    expect_circle(&rt, alloc, &mut graph);
    drop(graph);
}

#[test]
fn repaired(rt: HostRuntime) {
    let alloc = rt.alloc();
    let mut graph = Graph::new(alloc);
    make_room(&rt, &mut graph, 6, 5);
    add_classes(&rt, &mut graph, 6);
    expect_insert(&rt, &mut graph, 0, 5, Insert::Kept);
    insert_moved(&rt, &mut graph, 4, 1, 4);
    expect_rise(&rt, &mut graph, &[0, 4, 1, 5]);
    assert_eq!(rt; rank(&rt, &mut graph, 0), 0);
    assert_eq!(rt; rank(&rt, &mut graph, 5), 5);
    expect_insert(&rt, &mut graph, 1, 4, Insert::Closed);
    expect_no_order(&rt, &mut graph);
    expect_insert(&rt, &mut graph, 5, 0, Insert::AfterCycle);
    expect_insert(&rt, &mut graph, 0, 5, Insert::Known);
    drop(graph);
}

// Of two shortest walks the places of the classes tell which one is shown.
#[test]
fn two_shortest_walks(rt: HostRuntime) {
    let alloc = rt.alloc();
    let mut graph = Graph::new(alloc);
    make_room(&rt, &mut graph, 4, 4);
    add_classes(&rt, &mut graph, 4);
    insert_new(&rt, &mut graph, 0, 1);
    insert_new(&rt, &mut graph, 0, 2);
    insert_new(&rt, &mut graph, 1, 3);
    insert_new(&rt, &mut graph, 2, 3);
    expect_walk(&rt, alloc, &graph, (0, 3), &[0, 1, 2, 3], &[0, 1, 3]);
    expect_walk(&rt, alloc, &graph, (0, 3), &[0, 2, 1, 3], &[0, 2, 3]);
    drop(graph);
}

#[test]
fn a_class_after_itself(rt: HostRuntime) {
    let mut graph = Graph::new(rt.alloc());
    make_room(&rt, &mut graph, 1, 1);
    add_classes(&rt, &mut graph, 1);
    expect_insert(&rt, &mut graph, 0, 0, Insert::Closed);
    expect_no_order(&rt, &mut graph);
    drop(graph);
}

#[test]
fn a_class_added_later(rt: HostRuntime) {
    let mut graph = Graph::new(rt.alloc());
    make_room(&rt, &mut graph, 3, 2);
    add_classes(&rt, &mut graph, 2);
    insert_moved(&rt, &mut graph, 1, 0, 2);
    expect_order(&rt, &mut graph, &[1, 0]);
    assert!(rt; graph.spare_classes() > 0);
    assert_eq!(rt; graph.add_class(), 2);
    expect_order(&rt, &mut graph, &[1, 0, 2]);
    drop(graph);
}

// Class 0 stays the first one, and each other class goes directly before the one that went last. So the gap behind
// class 0 has no label left again and again.
#[test]
fn a_chain_from_its_end(rt: HostRuntime) {
    let alloc = rt.alloc();
    let mut graph = Graph::new(alloc);
    make_room(&rt, &mut graph, 2_000, 2_000);
    add_classes(&rt, &mut graph, 2_000);
    for class in 1..1_999 {
        insert_moved(&rt, &mut graph, class + 1, class, 2);
    }
    assert_eq!(rt; rank(&rt, &mut graph, 0), 0);
    for class in 1..2_000 {
        assert_eq!(rt; rank(&rt, &mut graph, class), 2_000 - class);
    }
    drop(graph);
}

// A search that answered `AllocError` for many classes would meet every contract.
#[test]
fn a_long_way(rt: HostRuntime) {
    let alloc = rt.alloc();
    let mut graph = Graph::new(alloc);
    make_room(&rt, &mut graph, 2_000, 2_000);
    add_classes(&rt, &mut graph, 2_000);
    for a in 0..1_999 {
        insert_new(&rt, &mut graph, a, a + 1);
    }
    assert!(rt; components(&rt, alloc, &graph).len() == 2_000);
    let distances = distances(&rt, alloc, &graph, 1_999);
    assert!(rt; !distances.is_empty());
    assert_eq!(rt; distances[0].get(), Some(1_999));
    let mut places = Vec::new(alloc);
    assert!(rt; places.resize(2_000, 0).is_ok());
    let walk = walk(&rt, alloc, &graph, 0, 1_999, &places).expect(&rt, "a walk");
    assert_eq!(rt; walk.len(), 2_000);
    drop(graph);
}
