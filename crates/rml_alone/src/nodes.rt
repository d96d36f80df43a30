//! Nodes with which a graph begins, and whether its equations are solved in the end.

ghost use Rattle.std.specs.Prelude.{◌≡◌, ℕ, ◌<◌, length, map, All, None, IfOk, OnOk};
ghost use Rattle.rml_types.specs.Finite.{HasTypes};
ghost use Rattle.rml_types.specs.Runs.{Fresh, Grows, Keeps};
ghost use Rattle.rml_types.specs.declared.tree.SchemeTree.{SchemeTree};
ghost use Rattle.rml_alone.specs.Answers.{IsAnswer};

use rml_base::Memory;
use rml_equations::Stop;
use rml_types::{Graph, SchemeTree};
use std::alloc::Global;

/// So many new nodes without forms.
pub fn fresh(alloc: Global, graph: &mut Graph, count: usize) -> Result<Vec<usize>, Memory>
    ensures grows { Grows graph.old graph.new }
    ensures count { IfOk result (λ v. length v.items ≡ count) }
    ensures ok { IfOk result (λ v. Fresh graph.old graph.new v.items) }
{
    let mut nodes = Vec::new(alloc);
    for _ in 0..count {
        let node = graph.var()?;
        nodes.push(node)?;
    }
    Ok(nodes)
}

/// A node for each of some types as they stand.
pub fn fixed_all(
    alloc: Global,
    graph: &mut Graph,
    trees: &[SchemeTree],
) -> Result<Vec<usize>, Memory>
    ensures keeps { Keeps graph.old graph.new }
    ensures within { IfOk result (λ v. All (λ n. n < length graph.new.forms) v.items) }
    ensures types { IfOk result (λ v. (types : ℕ → SchemeTree) → HasTypes graph.new types → map types v.items ≡ trees.now) }
{
    let mut nodes = Vec::new(alloc);
    for tree in trees {
        let node = graph.fixed(tree)?;
        nodes.push(node)?;
    }
    Ok(nodes)
}

/// Whether equations that were made, or could not be, have a solution in finite types.
pub fn is_solved(graph: &mut Graph, made: Result<(), Stop>) -> Result<bool, Memory>
    requires { OnOk made (graph.old.failed ≡ None) }
    ensures { IfOk result (IsAnswer graph.old made) }
{
    match made {
        Ok(()) => Ok(graph.acyclic()),
        Err(Stop::Untyped) => Ok(false),
        Err(Stop::Memory) => Err(Memory),
    }
}
