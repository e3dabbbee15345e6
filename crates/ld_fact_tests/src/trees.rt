//! Shown paths from one class to many. Each call that takes memory is made once more where it was refused, so these
//! hold whichever allocation fails.

ghost use Rattle.std.specs.Prelude.{◌≡◌, ◌<◌, length};
ghost use Rattle.ld_tree.specs.Trees.{ArePlaced, IsTreeOf};

use crate::graphs::{add_classes, insert_new, make_room};
use ld_graph::Graph;
use ld_tree::{Leading, Tree};
use std::alloc::Global;
use std::process::Abort;

/// What leads to class 3.
fn leading_to_three<'p, R: Abort>(
    rt: &R,
    alloc: Global,
    graph: &Graph,
    classes: &'p [u32],
) -> Leading<'p>
    requires few { 3 < graph.now.classes }
    requires order { ArePlaced graph.now.classes classes.now classes.now }
    ensures size { length result.lists ≡ graph.now.classes }
{
    match Leading::new(alloc, graph, &[3], classes, classes) {
        Ok(leading) => leading,
        Err(_) => {
            Leading::new(alloc, graph, &[3], classes, classes).expect(rt, "leading made again")
        }
    }
}

/// A tree of so many classes.
fn tree_of<R: Abort>(rt: &R, alloc: Global, classes: usize) -> Tree
    ensures { length result.numbers ≡ classes }
{
    match Tree::new(alloc, classes) {
        Ok(tree) => tree,
        Err(_) => Tree::new(alloc, classes).expect(rt, "tree made again"),
    }
}

/// Searches from a class. A search that was refused is forgotten by the next one.
fn search<R: Abort>(rt: &R, tree: &mut Tree, leading: &Leading<'_>, start: u32)
    requires start { start < length leading.now.lists }
    requires size { length tree.old.numbers ≡ length leading.now.lists }
    ensures size { length tree.new.numbers ≡ length tree.old.numbers }
    ensures tree { IsTreeOf leading.now start tree.new }
{
    match tree.search(leading, start) {
        Ok(()) => {}
        Err(_) => tree.search(leading, start).expect(rt, "searched again"),
    }
}

/// Asserts the paths from a class to those that are found, in the order in which they are.
fn expect_paths<R: Abort>(
    rt: &R,
    alloc: Global,
    tree: &mut Tree,
    leading: &Leading<'_>,
    start: u32,
    wanted: &[&[u32]],
)
    requires start { start < length leading.now.lists }
    requires size { length tree.old.numbers ≡ length leading.now.lists }
    ensures size { length tree.new.numbers ≡ length tree.old.numbers }
{
    search(rt, tree, leading, start);
    let found = tree.found();
    let mut path = Vec::new(alloc);
    assert_eq!(rt; found.len(), wanted.len());
    for (number, end) in found.iter().enumerate() {
        if tree.walk(leading, start, *end, &mut path).is_err() {
            tree.walk(leading, start, *end, &mut path)
                .expect(rt, "path made again");
        }
        assert!(rt; number < wanted.len());
        assert_eq!(rt; path.as_slice(), wanted[number]);
    }
}

// Two paths lead from class 0 to class 3, and class 4 leads nowhere.
#[test]
fn paths_to_one_class(rt: HostRuntime) {
    let alloc = rt.alloc();
    let mut graph = Graph::new(alloc);
    make_room(&rt, &mut graph, 5, 5);
    add_classes(&rt, &mut graph, 5);
    insert_new(&rt, &mut graph, 0, 2);
    insert_new(&rt, &mut graph, 0, 1);
    insert_new(&rt, &mut graph, 0, 4);
    insert_new(&rt, &mut graph, 1, 3);
    insert_new(&rt, &mut graph, 2, 3);
    assert_eq!(rt; graph.len(), 5);
    // Each class is at the place of its number.
    let classes = [0, 1, 2, 3, 4];
    let leading = leading_to_three(&rt, alloc, &graph, &classes);
    let mut tree = tree_of(&rt, alloc, 5);
    expect_paths(
        &rt,
        alloc,
        &mut tree,
        &leading,
        0,
        &[&[0, 1], &[0, 2], &[0, 1, 3]],
    );
    expect_paths(&rt, alloc, &mut tree, &leading, 2, &[&[2, 3]]);
    expect_paths(&rt, alloc, &mut tree, &leading, 4, &[]);
    drop(graph);
}
