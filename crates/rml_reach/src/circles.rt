//! The nodes that lie on circles.

ghost use Rattle.std.specs.Prelude.{◌≡◌, ◌<◌, ℕ, ◌↔◌, true, length, slice_index, slice_index_or, map, IfOk, IsTrue, Contains};
ghost use Rattle.rml_reach.specs.Paths.{Holds, IsGraph, IsOnCircle};

use crate::connected::components;
use rml_base::Memory;
use sqlite_items::Items;
use std::alloc::Global;

/// Whether one of some nodes has the chosen node.
fn has_one(ends: &[u32], chosen: &[u32], own: u32) -> bool
    requires { (m : ℕ) → Contains ends.now m → m < length chosen.now }
    ensures { IsTrue result ↔ ((m : ℕ) × Contains ends.now m × (slice_index chosen.now m ≡ own)) }
{
    for end in ends {
        if chosen[*end as usize] == own {
            return true;
        }
    }
    false
}

/// For each node whether it lies on a circle: whether a path of at least one edge leads from it to itself. An edge from a node to itself
/// is one.
pub fn on_circles(alloc: Global, edges: &[Items<u32>]) -> Result<Vec<bool>, Memory>
    requires graph { IsGraph edges.now }
    ensures count { IfOk result (λ r. length r.items ≡ length edges.now) }
    ensures exact { IfOk result (λ r. (n : ℕ) → Holds r.items n ↔ IsOnCircle edges.now n) }
{
    let chosen = components(alloc, edges)?;
    let mut on = vec![in alloc; false; edges.len()]?;
    for node in 0..edges.len() {
        on[node] = has_one(edges[node].as_slice(), chosen.as_slice(), chosen[node]);
    }
    Ok(on)
}
