//! What no clause says: that these calls answer with memory at hand, on the graphs that a reader would try first, and in time linear in
//! nodes and edges.

ghost use Rattle.std.specs.Prelude.{◌≡◌, ◌<◌, ◌^◌, ℕ, length, IfOk, OnOk};
ghost use Rattle.rml_reach.specs.Paths.{HasEdge, IsGraph};

use crate::{add_edge, components, on_circles, reached, reaching, without_edges};
use rml_base::Memory;
use sqlite_items::Items;
use std::alloc::Global;
use std::test::Fail;

/// Adds an edge between nodes; another is left out.
fn put(graph: &mut [Items<u32>], from: u32, to: u32) -> Result<(), Memory>
    requires { (a b : ℕ) → HasEdge graph.old a b → b < length graph.old }
    ensures { OnOk result ((a b : ℕ) → HasEdge graph.new a b → b < length graph.new) }
{
    if from as usize >= graph.len() || to as usize >= graph.len() {
        return Ok(());
    }
    add_edge(graph, from, to)?;
    Ok(())
}

/// Adds edges between nodes.
fn fill(graph: &mut [Items<u32>], edges: &[(u32, u32)]) -> Result<(), Memory>
    requires { (a b : ℕ) → HasEdge graph.old a b → b < length graph.old }
    ensures { OnOk result ((a b : ℕ) → HasEdge graph.new a b → b < length graph.new) }
{
    for (from, to) in edges {
        put(graph, *from, *to)?;
    }
    Ok(())
}

/// A graph of so many nodes with these edges.
fn graph(alloc: Global, count: u32, edges: &[(u32, u32)]) -> Result<Vec<Items<u32>>, Memory>
    ensures { IfOk result (λ g. IsGraph g.items) }
{
    let mut graph = without_edges(alloc, count as usize)?;
    fill(graph.as_mut_slice(), edges)?;
    Ok(graph)
}

/// A circle of three nodes, 1 to 3, with a node before it and one behind it, and a node 5 with an edge to itself, before the circle.
const EDGES: [(u32, u32); 7] = [(0, 1), (1, 2), (2, 3), (3, 1), (3, 4), (5, 5), (5, 0)];

#[test]
fn a_node_before_a_circle_is_not_on_it(rt: HostRuntime) -> Result<(), Fail> {
    let graph = graph(rt.alloc(), 6, EDGES.as_slice())?;
    let on = on_circles(rt.alloc(), graph.as_slice())?;
    assert_eq!(rt;
        on.as_slice(),
        [false, true, true, true, false, true].as_slice()
    );
    Ok(())
}

#[test]
fn nodes_are_reached_along_all_edges(rt: HostRuntime) -> Result<(), Fail> {
    let graph = graph(rt.alloc(), 6, EDGES.as_slice())?;
    if graph.len() != 6 {
        return Ok(());
    }
    let from_two = reached(rt.alloc(), graph.as_slice(), [2].as_slice())?;
    assert_eq!(rt;
        from_two.as_slice(),
        [false, true, true, true, true, false].as_slice()
    );
    let to_two = reaching(rt.alloc(), graph.as_slice(), [2].as_slice())?;
    assert_eq!(rt;
        to_two.as_slice(),
        [true, true, true, true, false, true].as_slice()
    );
    let none = reaching(rt.alloc(), graph.as_slice(), [].as_slice())?;
    assert_eq!(rt; none.as_slice(), [false; 6].as_slice());
    Ok(())
}

/// A long way there, and where it is told, back.
fn long_way(alloc: Global, count: u32, back: bool) -> Result<Vec<(u32, u32)>, Memory> {
    let mut edges = Vec::new(alloc);
    for node in 1..count {
        edges.push((node - 1, node))?;
        if back {
            edges.push((node, node - 1))?;
        }
    }
    Ok(edges)
}

/// One look at all nodes for each node would be some thousands of millions of looks.
#[test]
fn many_nodes_take_no_longer_each(rt: HostRuntime) -> Result<(), Fail> {
    for back in [false, true] {
        let edges = long_way(rt.alloc(), 60_000, back)?;
        let graph = graph(rt.alloc(), 60_000, edges.as_slice())?;
        let on = on_circles(rt.alloc(), graph.as_slice())?;
        assert_eq!(rt; on.iter().all(|answer| *answer == back), true);
        let chosen = components(rt.alloc(), graph.as_slice())?;
        assert_eq!(rt; chosen.iter().all(|node| *node == 0), back);
    }
    Ok(())
}
