//! The equations of the first parts of a rule.

ghost use Rattle.std.specs.Prelude.{◌≡◌, ◌<◌, List, length, take, All, None, OnOk};
ghost use Rattle.rml_types.specs.declared.tree.SchemeTree.{SchemeTree};
ghost use Rattle.rml_typed.specs.Parts.{PieceOf, RelType, pieces};
ghost use Rattle.rml_typed.specs.Typed.{ExpsOf, PatternsOf};
ghost use Rattle.rml_equations.specs.declared.coding.Coding.{Coding};
ghost use Rattle.rml_generator.specs.Adds.{Told};
ghost use Rattle.rml_generator.specs.Scopes.{FindsFact, GoesOn, Serves, reads, uses, watched};
ghost use Rattle.rml_generator.specs.Sides.{EqualsEach, Gives, Tied, side_nodes};

use crate::expressions::expressions;
use crate::goals::goals;
use crate::patterns::patterns;
use crate::scope::Scope;
use crate::wholes::same;
use rml_equations::{Stop, tuple};
use rml_resolved::{RExp, RPat, RRule};
use rml_types::Graph;
use std::alloc::Global;

/// The types to which the head of a rule, or its results, are held.
#[derive(Drop)]
pub enum Side {
    /// The type of each of these nodes.
    Each(Vec<usize>),
    /// A node of the tuple of the types, whose count may be open.
    Whole(usize),
}

/// Adds the equations of the first parts of a rule, so many of them.
pub fn first_parts(
    alloc: Global,
    graph: &mut Graph,
    scope: &Scope,
    inputs: &Side,
    outputs: &Side,
    rule: &RRule,
    count: usize,
) -> Result<(), Stop>
    requires serves { Serves scope.now graph.old }
    requires inputs { All (λ n. n < length graph.old.forms) (side_nodes inputs.now) }
    requires outputs { All (λ n. n < length graph.old.forms) (side_nodes outputs.now) }
    ensures { (k : Told → RelType) → Gives scope.now.coding (watched scope.now) graph.old inputs.now (λ told. (k told).inputs) → Gives scope.now.coding (watched scope.now) graph.old outputs.now (λ told. (k told).outputs)
        → FindsFact scope.now graph.old graph.new (λ told. All (PieceOf (reads scope.now) (uses scope.now told) (k told) told.vars) (take count (pieces rule.now))) result }
{
    if count == 0 {
        return Ok(());
    }
    head(alloc, graph, scope, inputs, rule.inputs.as_slice())?;
    let premises = rule.goals.as_slice();
    if count - 1 <= premises.len() {
        return goals(alloc, graph, scope, &premises[..count - 1]);
    }
    goals(alloc, graph, scope, premises)?;
    results(alloc, graph, scope, outputs, rule.results.as_slice())
}

/// Adds the equations of a head.
fn head(
    alloc: Global,
    graph: &mut Graph,
    scope: &Scope,
    side: &Side,
    inputs: &[RPat],
) -> Result<(), Stop>
    requires serves { Serves scope.now graph.old }
    requires side { All (λ n. n < length graph.old.forms) (side_nodes side.now) }
    ensures goes { OnOk result (GoesOn scope.now graph.old graph.new) }
    ensures finds { (k : Told → List SchemeTree) → Gives scope.now.coding (watched scope.now) graph.old side.now k
        → FindsFact scope.now graph.old graph.new (λ told. PatternsOf (reads scope.now) told.vars inputs.now (k told)) result }
{
    let nodes = patterns(alloc, graph, scope, inputs)?;
    hold(graph, &nodes, side)
}

/// Adds the equations of results.
fn results(
    alloc: Global,
    graph: &mut Graph,
    scope: &Scope,
    side: &Side,
    outputs: &[RExp],
) -> Result<(), Stop>
    requires serves { Serves scope.now graph.old }
    requires side { All (λ n. n < length graph.old.forms) (side_nodes side.now) }
    ensures { (k : Told → List SchemeTree) → Gives scope.now.coding (watched scope.now) graph.old side.now k
        → FindsFact scope.now graph.old graph.new (λ told. ExpsOf (reads scope.now) (uses scope.now told) told.vars outputs.now (k told)) result }
{
    let nodes = expressions(alloc, graph, scope, outputs)?;
    hold(graph, &nodes, side)
}

/// Makes nodes equal to those of the types to which they are held.
fn hold(graph: &mut Graph, nodes: &[usize], side: &Side) -> Result<(), Stop>
    requires live { graph.old.failed ≡ None }
    requires within { All (λ n. n < length graph.old.forms) nodes.now }
    requires side { All (λ n. n < length graph.old.forms) (side_nodes side.now) }
    ensures { (c : Coding) → Tied c graph.old graph.new nodes.now side.now result }
{
    match side {
        Side::Each(types) => equal_each(graph, nodes, types),
        Side::Whole(whole) => {
            let node = tuple(graph, nodes)?;
            same(graph, node, *whole)
        }
    }
}

/// Makes nodes equal one by one, where they are as many.
fn equal_each(graph: &mut Graph, nodes: &[usize], others: &[usize]) -> Result<(), Stop>
    requires live { graph.old.failed ≡ None }
    requires within { All (λ n. n < length graph.old.forms) nodes.now }
    requires others_within { All (λ n. n < length graph.old.forms) others.now }
    ensures { EqualsEach graph.old graph.new nodes.now others.now result }
{
    if nodes.len() != others.len() {
        return Err(Stop::Untyped);
    }
    for (i, node) in nodes.iter().enumerate() {
        same(graph, *node, others[i])?;
    }
    Ok(())
}
