//! Nodes over those of parts: what a constructor makes, tuples, lists and chains; and nodes over nothing.

ghost use Rattle.std.specs.Prelude.{◌≡◌, ◌<◌, ◌∷◌, [], length, All, None};
ghost use Rattle.rml_types.specs.declared.tree.SchemeTree.{SchemeTree};
ghost use Rattle.rml_types.specs.declared.tree.SchemeTree.TheVariants as tree;
ghost use Rattle.rml_builtin.specs.Types.{list};
ghost use Rattle.rml_typed.specs.Typed.{AreChain, HasInstance, type_of_literal};
ghost use Rattle.rml_equations.specs.declared.coding.Coding.{Coding};
ghost use Rattle.rml_equations.specs.Joins.{Links};
ghost use Rattle.rml_generator.specs.Adds.{Equals};
ghost use Rattle.rml_generator.specs.Scopes.{reads};

use crate::scope::Scope;
use rml_equations::{Stop, chain, literal, relation, tuple};
use rml_syntax::Lit;
use rml_types::Graph;
use std::alloc::Global;

/// A node that may be of any type.
pub fn any_type(graph: &mut Graph) -> Result<usize, Stop>
    requires { graph.old.failed ≡ None }
    ensures { (c : Coding) → Links c graph.old graph.new [] (λ ts t. Unit {0}) result }
{
    Ok(graph.var()?)
}

/// A node of the type of a literal.
pub fn whole_literal(graph: &mut Graph, lit: Lit) -> Result<usize, Stop>
    requires { graph.old.failed ≡ None }
    ensures { (c : Coding) → Links c graph.old graph.new [] (λ ts t. t ≡ type_of_literal lit) result }
{
    Ok(literal(graph, lit)?)
}

/// A node of the tuples of the types of some nodes.
pub fn whole_tuple(graph: &mut Graph, nodes: &[usize]) -> Result<usize, Stop>
    requires live { graph.old.failed ≡ None }
    requires within { All (λ n. n < length graph.old.forms) nodes.now }
    ensures { (c : Coding) → Links c graph.old graph.new nodes.now (λ ts t. t ≡ tree.Tuple ts) result }
{
    Ok(tuple(graph, nodes)?)
}

/// A node of the chains of `::` of items with these nodes, of which the last is the tail.
pub fn whole_chain(graph: &mut Graph, nodes: &[usize]) -> Result<usize, Stop>
    requires live { graph.old.failed ≡ None }
    requires within { All (λ n. n < length graph.old.forms) nodes.now }
    ensures { (c : Coding) → Links c graph.old graph.new nodes.now (λ ts t. (u : SchemeTree) × AreChain u ts × (t ≡ list u)) result }
{
    match nodes.split_last() {
        Some((tail, items)) => chain(graph, items, *tail),
        None => Err(Stop::Untyped),
    }
}

/// A node of what a constructor makes of the types of some nodes.
pub fn made(
    alloc: Global,
    graph: &mut Graph,
    scope: &Scope,
    con: u32,
    parts: &[usize],
) -> Result<usize, Stop>
    requires live { graph.old.failed ≡ None }
    requires within { All (λ n. n < length graph.old.forms) parts.now }
    ensures { Links scope.now.coding graph.old graph.new parts.now (λ ts t. HasInstance ((reads scope.now).con con) (tree.Rel ts (t ∷ []))) result }
{
    let whole = graph.var()?;
    let taken = relation(alloc, graph, scope.coding, parts, &[whole])?;
    let scheme = scope.constructor(alloc, graph, con)?;
    same(graph, taken, scheme)?;
    Ok(whole)
}

/// Makes two nodes equal.
pub fn same(graph: &mut Graph, a: usize, b: usize) -> Result<(), Stop>
    requires live { graph.old.failed ≡ None }
    requires a_within { a < length graph.old.forms }
    requires b_within { b < length graph.old.forms }
    ensures { Equals graph.old graph.new a b result }
{
    Ok(graph.unify(a, b)?)
}
