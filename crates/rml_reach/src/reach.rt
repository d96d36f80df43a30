//! The nodes that some nodes reach.

ghost use Rattle.std.specs.Prelude.{◌≡◌, ◌<◌, ◌+◌, ◌≤◌, ℕ, ◌↔◌, ◌∷◌, ◌++◌, [], length, Contains, IfOk, OnOk};
ghost use Rattle.rml_reach.specs.Left.{left};
ghost use Rattle.rml_reach.specs.Paths.{Holds, IsGraph, IsReachedFrom};
ghost use Rattle.rml_reach.specs.WorkList.{IsWorkList};

use rml_base::Memory;
use sqlite_items::Items;
use std::alloc::Global;

/// For each node whether a path from one of some nodes comes to it. A path may have no edge, so these nodes are reached.
pub fn reached(alloc: Global, edges: &[Items<u32>], from: &[u32]) -> Result<Vec<bool>, Memory>
    requires graph { IsGraph edges.now }
    requires nodes { (n : ℕ) → Contains from.now n → n < length edges.now }
    ensures count { IfOk result (λ r. length r.items ≡ length edges.now) }
    ensures exact { IfOk result (λ r. (n : ℕ) → Holds r.items n ↔ IsReachedFrom edges.now from.now n) }
{
    let mut seen = vec![in alloc; false; edges.len()]?;
    let mut waiting = from.to_vec(alloc)?;
    while let Some(node) = waiting.pop() {
        look(edges, from, node, seen.as_mut_slice(), &mut waiting)?;
    }
    Ok(seen)
}

/// Looks at a node that waited: where it is not seen yet, it is from now on, and the nodes to which it has edges wait.
fn look(
    edges: &[Items<u32>],
    from: &[u32],
    node: u32,
    seen: &mut [bool],
    waiting: &mut Vec<u32>,
) -> Result<(), Memory>
    requires graph { IsGraph edges.now }
    requires work { IsWorkList edges.now from.now seen.old (waiting.old.items ++ node ∷ []) }
    ensures work { OnOk result (IsWorkList edges.now from.now seen.new waiting.new.items) }
    ensures falls { OnOk result (left seen.new edges.now + length waiting.new.items ≤ left seen.old edges.now + length waiting.old.items) }
{
    let at = node as usize;
    if seen[at] {
        return Ok(());
    }
    waiting.extend_from_slice(edges[at].as_slice())?;
    seen[at] = true;
    Ok(())
}
