//! A worked reach beside its graph. The call that takes memory is made once more where it was refused,
//! so these hold whichever allocation fails.

use ld_graph::{Graph, MOST_GRAPH_CLASSES, Reach, Reader, Steps};
use std::process::Abort;

/// Makes room. Where memory is refused nothing else changes, and the call made again answers `Ok`.
fn make_room<R: Abort>(rt: &R, reach: &mut Reach, classes: usize) {
    assert!(rt; classes <= MOST_GRAPH_CLASSES - reach.len());
    let (len, expanded) = (reach.len(), reach.expanded());
    if reach.room(classes).is_err() {
        assert_eq!(rt; reach.len(), len);
        assert_eq!(rt; reach.expanded(), expanded);
        reach.room(classes).expect(rt, "room made again");
    }
    assert!(rt; reach.spare() >= classes);
}

/// Adds so many classes to both.
fn add_classes<R: Abort>(rt: &R, graph: &mut Graph, reach: &mut Reach, count: usize) {
    assert!(rt; count <= MOST_GRAPH_CLASSES - graph.len());
    if graph.room(count, 4).is_err() {
        graph.room(count, 4).expect(rt, "room made again");
    }
    make_room(rt, reach, count);
    for _ in 0..count {
        assert!(rt; graph.spare_classes() > 0 && reach.spare() > 0);
        graph.add_class();
        reach.add_class();
    }
}

/// Inserts the edge, and tells it.
fn insert<R: Abort>(rt: &R, graph: &mut Graph, reach: &mut Reach, a: u32, b: u32) {
    assert!(rt; reach.len() == graph.len());
    assert!(rt; (a as usize) < graph.len() && (b as usize) < graph.len());
    assert!(rt; graph.spare_edges() > 0);
    graph.insert(a, b, &mut Steps::new());
    reach.along(&mut Reader::new(graph.lists()), a, b);
}

fn expect_sources<R: Abort>(rt: &R, reach: &Reach, wanted: &[Option<u32>]) {
    assert_eq!(rt; reach.len(), wanted.len());
    for c in 0..reach.len() as u32 {
        assert!(rt; (c as usize) < reach.len() && (c as usize) < wanted.len());
        assert_eq!(rt; reach.source(c), wanted[c as usize], "of {c}");
    }
}

#[test]
fn a_seed_is_reached_where_a_walk_comes_back(rt: HostRuntime) {
    let alloc = rt.alloc();
    let mut graph = Graph::new(alloc);
    let mut reach = Reach::new(alloc);
    add_classes(&rt, &mut graph, &mut reach, 3);
    assert!(rt; reach.len() == 3 && graph.len() == 3);
    reach.seed(&mut Reader::new(graph.lists()), 0);
    expect_sources(&rt, &reach, &[None, None, None]);
    insert(&rt, &mut graph, &mut reach, 1, 2);
    expect_sources(&rt, &reach, &[None, None, None]);
    insert(&rt, &mut graph, &mut reach, 0, 1);
    expect_sources(&rt, &reach, &[None, Some(0), Some(0)]);
    insert(&rt, &mut graph, &mut reach, 2, 0);
    expect_sources(&rt, &reach, &[Some(0), Some(0), Some(0)]);
    assert!(rt; reach.expanded() <= 3);
    // Where a growth is refused now, each answer is as before.
    assert!(rt; reach.len() == 3);
    if reach.room(1_000).is_err() {
        expect_sources(&rt, &reach, &[Some(0), Some(0), Some(0)]);
    }
    make_room(&rt, &mut reach, 1_000);
    expect_sources(&rt, &reach, &[Some(0), Some(0), Some(0)]);
    drop(graph);
}

// A `room` that answered `AllocError` for many classes would meet every contract.
#[test]
fn there_is_room_for_many_classes(rt: HostRuntime) {
    let alloc = rt.alloc();
    let mut reach = Reach::new(alloc);
    make_room(&rt, &mut reach, 100_000);
    drop(reach);
}
