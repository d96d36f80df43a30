//! Nodes over nodes: literals, tuples, relation types, lists, and nodes made equal.

ghost use Rattle.std.specs.Prelude.{◌≡◌, ℕ, ◌<◌, ◌∷◌, ◌++◌, [], length, map, All, None, IfOk, OnOk};
ghost use Rattle.rml_types.specs.declared.tree.SchemeTree.{SchemeTree};
ghost use Rattle.rml_types.specs.declared.tree.SchemeTree.TheVariants as tree;
ghost use Rattle.rml_typed.specs.Typed.{AreChain, AreItems, type_of_literal};
ghost use Rattle.rml_builtin.specs.Types.{list};
ghost use Rattle.rml_equations.specs.declared.coding.Coding.{Coding};
ghost use Rattle.rml_equations.specs.Coding.{relation_as};
ghost use Rattle.rml_equations.specs.Joins.{CannotEquateAll, EquatesAll, Links, Makes};

use crate::coding::Coding;
use crate::stop::Stop;
use rml_base::Memory;
use rml_builtin::types::{CHAR, INT, LIST, STRING};
use rml_syntax::Lit;
use rml_types::{Graph, TypeCon};
use std::alloc::Global;

/// A node of the type of a literal.
pub fn literal(graph: &mut Graph, lit: Lit) -> Result<usize, Memory>
    requires { graph.old.failed ≡ None }
    ensures { IfOk result (Makes graph.old graph.new (λ types. type_of_literal lit)) }
{
    match lit {
        Lit::Int(_) => constant(graph, INT),
        Lit::Char(_) => constant(graph, CHAR),
        Lit::Text(_) => constant(graph, STRING),
    }
}

/// A node of a type without arguments.
fn constant(graph: &mut Graph, number: u32) -> Result<usize, Memory>
    requires { graph.old.failed ≡ None }
    ensures { IfOk result (Makes graph.old graph.new (λ types. tree.Named number [])) }
{
    graph.app(TypeCon::Named(number), &[])
}

/// A node of the tuples of the types of some nodes.
pub fn tuple(graph: &mut Graph, nodes: &[usize]) -> Result<usize, Memory>
    requires live { graph.old.failed ≡ None }
    requires within { All (λ n. n < length graph.old.forms) nodes.now }
    ensures { IfOk result (Makes graph.old graph.new (λ types. tree.Tuple (map types nodes.now))) }
{
    graph.app(TypeCon::Tuple, nodes)
}

/// A node of the relation types from the types of some nodes to those of others.
pub fn relation(
    alloc: Global,
    graph: &mut Graph,
    coding: Coding,
    inputs: &[usize],
    outputs: &[usize],
) -> Result<usize, Memory>
    requires live { graph.old.failed ≡ None }
    requires inputs { All (λ n. n < length graph.old.forms) inputs.now }
    requires outputs { All (λ n. n < length graph.old.forms) outputs.now }
    ensures { IfOk result (Makes graph.old graph.new (λ types. relation_as coding (map types inputs.now) (map types outputs.now))) }
{
    match coding {
        Coding::Plain => plain_relation(alloc, graph, inputs, outputs),
        Coding::Packed => packed_relation(graph, inputs, outputs),
    }
}

fn plain_relation(
    alloc: Global,
    graph: &mut Graph,
    inputs: &[usize],
    outputs: &[usize],
) -> Result<usize, Memory>
    requires live { graph.old.failed ≡ None }
    requires inputs { All (λ n. n < length graph.old.forms) inputs.now }
    requires outputs { All (λ n. n < length graph.old.forms) outputs.now }
    ensures { IfOk result (Makes graph.old graph.new (λ types. tree.Rel (map types inputs.now) (map types outputs.now))) }
{
    let Ok(count) = u32::try_from(inputs.len()) else {
        return Err(Memory);
    };
    let mut args = Vec::from_slice(alloc, inputs)?;
    args.extend_from_slice(outputs)?;
    graph.app(TypeCon::Rel(count), &args)
}

fn packed_relation(graph: &mut Graph, inputs: &[usize], outputs: &[usize]) -> Result<usize, Memory>
    requires live { graph.old.failed ≡ None }
    requires inputs { All (λ n. n < length graph.old.forms) inputs.now }
    requires outputs { All (λ n. n < length graph.old.forms) outputs.now }
    ensures { IfOk result (Makes graph.old graph.new (λ types. tree.Rel (tree.Tuple (map types inputs.now) ∷ []) (tree.Tuple (map types outputs.now) ∷ []))) }
{
    let taken = tuple(graph, inputs)?;
    let given = tuple(graph, outputs)?;
    graph.app(TypeCon::Rel(1), &[taken, given])
}

/// A node of the lists of items with these nodes.
pub fn list(graph: &mut Graph, items: &[usize]) -> Result<usize, Stop>
    requires live { graph.old.failed ≡ None }
    requires within { All (λ n. n < length graph.old.forms) items.now }
    ensures { (c : Coding) → Links c graph.old graph.new items.now (λ ts t. (u : SchemeTree) × AreItems u ts × (t ≡ list u)) result }
{
    let item = graph.var()?;
    equal_all(graph, items, item)?;
    Ok(graph.app(TypeCon::Named(LIST), &[item])?)
}

/// A node of the chains of `::` of items with some nodes and a tail with one.
pub fn chain(graph: &mut Graph, items: &[usize], tail: usize) -> Result<usize, Stop>
    requires live { graph.old.failed ≡ None }
    requires within { All (λ n. n < length graph.old.forms) items.now }
    requires tail_within { tail < length graph.old.forms }
    ensures { (c : Coding) → Links c graph.old graph.new (items.now ++ tail ∷ []) (λ ts t. (u : SchemeTree) × AreChain u ts × (t ≡ list u)) result }
{
    let whole = list(graph, items)?;
    graph.unify(tail, whole)?;
    Ok(whole)
}

/// Makes each of some nodes equal to one.
fn equal_all(graph: &mut Graph, nodes: &[usize], one: usize) -> Result<(), Stop>
    requires live { graph.old.failed ≡ None }
    requires within { All (λ n. n < length graph.old.forms) nodes.now }
    requires one_within { one < length graph.old.forms }
    ensures ok { OnOk result (EquatesAll graph.old graph.new nodes.now one) }
    ensures none { result ≡ Err Stop.Untyped → CannotEquateAll graph.old nodes.now one }
{
    for node in nodes {
        graph.unify(*node, one)?;
    }
    Ok(())
}
