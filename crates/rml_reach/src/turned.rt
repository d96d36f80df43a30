//! Graphs turned round, and the nodes that reach some.

ghost use Rattle.std.specs.Prelude.{◌≡◌, ◌<◌, ℕ, ◌↔◌, length, IfOk, OnOk, Contains};
ghost use Rattle.rml_reach.specs.Paths.{HasEdge, Holds, IsGraph, Reaches};
ghost use Rattle.rml_reach.specs.Turned.{AddsFrom, AddsTo, IsTurned};

use crate::reach::reached;
use rml_base::Memory;
use sqlite_items::Items;
use std::alloc::Global;

/// So many nodes without edges.
pub fn without_edges(alloc: Global, count: usize) -> Result<Vec<Items<u32>>, Memory>
    ensures count { IfOk result (λ r. length r.items ≡ count) }
    ensures none { IfOk result (λ r. (a b : ℕ) → HasEdge r.items a b → ⊥) }
{
    let mut nodes = Vec::new(alloc);
    for _ in 0..count {
        nodes.push(Items::new(alloc))?;
    }
    Ok(nodes)
}

/// Adds an edge from a node to another.
pub fn add_edge(edges: &mut [Items<u32>], from: u32, to: u32) -> Result<(), Memory>
    requires { from < length edges.old }
    ensures { OnOk result ((a b : ℕ) → HasEdge edges.new a b ↔ AddsTo edges.old from to a b) }
{
    edges[from as usize].push(to)?;
    Ok(())
}

/// Adds edges from some nodes to one.
fn turn(turned: &mut [Items<u32>], ends: &[u32], from: u32) -> Result<(), Memory>
    requires { (m : ℕ) → Contains ends.now m → m < length turned.old }
    ensures { OnOk result ((a b : ℕ) → HasEdge turned.new a b ↔ AddsFrom turned.old ends.now from a b) }
{
    for end in ends {
        add_edge(turned, *end, from)?;
    }
    Ok(())
}

/// Adds each edge of a graph, turned round.
fn turn_each(turned: &mut [Items<u32>], edges: &[Items<u32>]) -> Result<(), Memory>
    requires graph { IsGraph edges.now }
    requires count { length turned.old ≡ length edges.now }
    requires none { (a b : ℕ) → HasEdge turned.old a b → ⊥ }
    ensures { OnOk result (IsTurned edges.now turned.new) }
{
    for from in 0..edges.len() {
        turn(turned, edges[from].as_slice(), from as u32)?;
    }
    Ok(())
}

/// The graph with each edge turned round.
fn turn_all(alloc: Global, edges: &[Items<u32>]) -> Result<Vec<Items<u32>>, Memory>
    requires graph { IsGraph edges.now }
    ensures count { IfOk result (λ r. length r.items ≡ length edges.now) }
    ensures turned { IfOk result (λ r. IsTurned edges.now r.items) }
{
    let mut turned = without_edges(alloc, edges.len())?;
    turn_each(turned.as_mut_slice(), edges)?;
    Ok(turned)
}

/// For each node whether a path from it comes to one of some nodes. A path may have no edge, so these nodes reach them.
pub fn reaching(alloc: Global, edges: &[Items<u32>], to: &[u32]) -> Result<Vec<bool>, Memory>
    requires graph { IsGraph edges.now }
    requires nodes { (n : ℕ) → Contains to.now n → n < length edges.now }
    ensures count { IfOk result (λ r. length r.items ≡ length edges.now) }
    ensures exact { IfOk result (λ r. (n : ℕ) → Holds r.items n ↔ Reaches edges.now to.now n) }
{
    let turned = turn_all(alloc, edges)?;
    let reaches = reached(alloc, turned.as_slice(), to)?;
    Ok(reaches)
}
